// What holds of every schedule and of every conflict, in the words of one who has sessions.
ghost use Rattle.std.specs.Prelude.{◌≡◌, ◌<◌, ◌≤◌, ◌+◌, ◌++◌, ◌∷◌, ℕ, List, [], Some, None, false, length, drop, map};
ghost use Rattle.std.specs.Prelude.{slice_index_or};
ghost use Rattle.std.specs.List.{concat, slice_split};
ghost use Rattle.ts_multi.specs.Sections.{lines, first_line, is_mark, sections};
ghost use Rattle.ts_multi.specs.Schedule.{order, total, items_of};
ghost use Rattle.ts_multi.specs.declared.object.Object.{Object};
ghost use Rattle.ts_multi.specs.declared.object.Touched.{Touched};
ghost use Rattle.ts_multi.specs.Objects.{meets};
ghost use Rattle.ts_multi.specs.Log.{conflict_after, commit_at, IsFirstConflict};

/// However the picks fall, the items of each session come in their order, and there are no others; all come where there
/// are as many picks as items.
pub fn an_order_is_a_shuffle<T>()
    ensures items { (left : List (List T)) (picks : List ℕ) → total left ≤ length picks →
        (session : ℕ) → items_of (session + 1) (order left picks) ≡ slice_index_or left session [] }
    ensures others { (left : List (List T)) (picks : List ℕ) → total left ≤ length picks →
        length (order left picks) ≡ total left }
{}

/// Picks behind the last item play no part.
pub fn more_picks_change_nothing<T>()
    ensures { (left : List (List T)) (picks more : List ℕ) → total left ≤ length picks →
        order left (picks ++ more) ≡ order left picks }
{}

/// A conflict is with the first commit behind the Begin that wrote an object which the transaction writes or names;
/// where there is none, no such commit did.
pub fn a_conflict_is_the_first()
    ensures some { (begun : ℕ) (noted : List Touched) (commits : List (List Object)) (number : ℕ) →
        conflict_after begun noted commits ≡ Some number → IsFirstConflict begun noted commits number }
    ensures none { (begun : ℕ) (noted : List Touched) (commits : List (List Object)) →
        conflict_after begun noted commits ≡ None →
        (number : ℕ) → begun < number → number ≤ length commits → meets (commit_at number commits) noted ≡ false }
{}

/// The lines of a source, one behind the other, are the source; the first of them ends with the first line feed, and so
/// does each of what is left. The sections are the runs of lines between the marked ones: nothing is lost, and nothing
/// is added.
pub fn sections_are_the_source()
    ensures lines { (bytes : List ℕ) → concat (lines bytes) ≡ bytes }
    ensures first { (bytes : List ℕ) → 0 < length bytes →
        lines bytes ≡ first_line bytes ∷ lines (drop (length (first_line bytes)) bytes) }
    ensures sections { (bytes : List ℕ) → sections bytes ≡ map concat (slice_split is_mark (lines bytes)) }
{}
