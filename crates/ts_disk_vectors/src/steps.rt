// Calls of a site one after the other.
use ts_disk::{Site, Volume};

/// A call, with what it writes or says.
#[derive(Clone, Copy, Debug)]
pub(crate) enum Step {
    Resize(u64),
    Write(u64, &'static [u8]),
    Sync,
    Say(&'static [u8]),
}

// Makes the call, where the site has room for it, and answers whether it answered Ok.
fn is_done<S: Site>(site: &mut S, step: Step) -> bool {
    match step {
        Step::Resize(bytes) => site.len() <= bytes && bytes <= 8192 && site.resize(bytes).is_ok(),
        Step::Write(at, from) => is_written(site, at, from),
        Step::Sync => site.sync().is_ok(),
        Step::Say(piece) => site.say(piece).is_ok(),
    }
}

fn is_written<V: Volume>(vol: &mut V, at: u64, from: &[u8]) -> bool {
    if at > 8192 || from.len() > 8192 || at + from.len() as u64 > vol.len() {
        return false;
    }
    vol.write_at(at, from).is_ok()
}

/// How many of the calls answered Ok before one failed.
pub(crate) fn count_done<S: Site>(site: &mut S, steps: &[Step]) -> usize {
    let mut count = 0;
    for step in steps {
        if !is_done(site, *step) {
            return count;
        }
        count = count.saturating_add(1);
    }
    count
}

/// Two bytes from that place on, if they can be read.
pub(crate) fn two_at<V: Volume>(vol: &mut V, at: u64) -> Option<[u8; 2]> {
    let mut into = [0; 2];
    if at > 8192 || at + 2 > vol.len() || vol.read_at(at, &mut into).is_err() {
        return None;
    }
    Some(into)
}
