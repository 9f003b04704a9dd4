// What keeping an image, and a commit, do to what a view reads.
ghost use Rattle.ts_views.specs.Laws.{KeepLeavesView, KeepCovers, CommitLeavesView, KeptCommitLeavesView};
ghost use Rattle.ts_views.specs.Laws.{KeepLeavesViews, KeepCoversViews, CommitLeavesViews};

/// A commit leaves what a view reads, once the old image of each page that it changes is kept.
pub fn a_commit_leaves_a_view()
    ensures kept { KeepLeavesView }
    ensures covers { KeepCovers }
    ensures commit { CommitLeavesView }
    ensures both { KeptCommitLeavesView }
{}

/// The same of all views that are open.
pub fn a_commit_leaves_the_open_views()
    ensures kept { KeepLeavesViews }
    ensures covers { KeepCoversViews }
    ensures commit { CommitLeavesViews }
{}
