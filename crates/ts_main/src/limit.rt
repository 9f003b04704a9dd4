// The limit on file sizes that the system has set for this program (`ulimit -f`).
use std::fs;

/// The most bytes that a file may have. Where the system doesn't say it, there is none.
pub(crate) fn file_limit(rt: &HostRuntime) -> u64 {
    match fs::read_to_string(rt, "/proc/self/limits") {
        Ok(limits) => limit_in(limits.as_str()).unwrap_or(u64::MAX),
        Err(_) => u64::MAX,
    }
}

/// The first number behind its name: the limit that holds, in bytes. `unlimited` stands there if there is none.
fn limit_in(limits: &str) -> Option<u64> {
    let mut lines = limits.lines();
    let numbers = lines.find_map(|line| line.strip_prefix("Max file size"))?;
    numbers.split_whitespace().next()?.parse().ok()
}
