// What a check finds.

/// Whether a volume means a catalogue; where it doesn't, its first bad page.
#[derive(Clone, Copy, Debug, PartialEq, Eq)]
pub enum Verdict {
    Good,
    Bad { page: u32 },
}
