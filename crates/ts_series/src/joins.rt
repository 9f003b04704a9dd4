// Which of the pieces that are left become one page.
ghost use Rattle.std.specs.Prelude.{◌≡◌, ◌+◌, ◌<◌, ◌≤◌, false};
ghost use Rattle.ts_series.specs.Ends.{joined_count, GoTogether, AreJoined};

/// How many pages are joined with what is left: of those before and of those behind none or one. Two pieces stay apart
/// where they don't fit one page.
#[derive(Clone, Copy, Debug, PartialEq, Eq)]
pub(crate) struct Joins {
    pub before: usize,
    pub behind: usize,
    pub apart: bool,
}

/// Which of these four become one: the page before, of so many elements, or of none where there is none; two pieces;
/// and the page behind.
pub(crate) fn joins_of(before: usize, n: usize, m: usize, behind: usize, room: usize) -> Joins
    requires first { n ≤ room }
    requires second { m ≤ room }
    requires room { room ≤ 451 }
    requires before { before ≤ 65535 }
    requires behind { behind ≤ 65535 }
    ensures { AreJoined room before n m behind result }
{
    if n + m > room {
        return Joins {
            before: fitting(before, n, room),
            behind: fitting(behind, m, room),
            apart: true,
        };
    }
    together(before, n + m, behind, room)
}

// The pieces fit one page.
fn together(before: usize, all: usize, behind: usize, room: usize) -> Joins
    requires all { all ≤ room }
    requires room { room ≤ 451 }
    requires before { before ≤ 65535 }
    requires behind { behind ≤ 65535 }
    ensures apart { result.apart ≡ false }
    ensures one_before { result.before ≤ 1 }
    ensures one_behind { result.behind ≤ 1 }
    ensures there_before { 1 ≤ result.before → 1 ≤ before }
    ensures there_behind { 1 ≤ result.behind → 1 ≤ behind }
    ensures fit { GoTogether room before (joined_count result.before before + all + joined_count result.behind behind) behind result.before result.behind }
{
    if all == 0 {
        // Nothing is left between two pages.
        let both = if before == 0 || before > room {
            0
        } else {
            fitting(behind, before, room)
        };
        return Joins {
            before: both,
            behind: both,
            apart: false,
        };
    }
    let one = fitting(before, all, room);
    let more = if one == 0 { all } else { before + all };
    Joins {
        before: one,
        behind: fitting(behind, more, room),
        apart: false,
    }
}

// 1 where there are some and they fit one page with so many others.
fn fitting(some: usize, others: usize, room: usize) -> usize
    requires others { others ≤ room }
    requires room { room ≤ 451 }
    requires some { some ≤ 65535 }
    ensures one { result ≤ 1 }
    ensures there { 1 ≤ result → 1 ≤ some }
    ensures fits { joined_count result some + others ≤ room }
    ensures meets { result ≡ 0 → 1 ≤ some → room < some + others }
{
    if some > 0 && some + others <= room {
        1
    } else {
        0
    }
}
