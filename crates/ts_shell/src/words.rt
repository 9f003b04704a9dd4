// The words of the command line.
ghost use Rattle.std.specs.Prelude.{◌≡◌, ◌≤◌, IfSome, map, string_bytes};
ghost use Rattle.ts_shell.specs.Words.{job_of, gen_job, IsJob, pages_in, count_in, seed_in, decimal};

use ts_text::{are_digits, magnitude};

/// What the program is asked to do.
#[derive(Clone, Copy, Debug, PartialEq, Eq)]
pub enum Job {
    /// Make a store with so many element pages, 1 to 65536.
    Init(u32),
    Run,
    /// Say a report on the volume.
    Check,
    /// Bring a store to the newest format.
    Migrate,
    /// Carry out the commands of a seed, with so many edits, 1 to 1000000.
    Gen { count: u32, seed: u32 },
    /// Carry out the sessions of the source in the order that a seed decides.
    Sessions { seed: u32 },
}

/// The job that the words name, if they name one.
#[tactic(auto, unfolding(crate::specs::Words::job_of))]
pub fn read_job(words: &[String]) -> Option<Job>
    ensures job { result ≡ job_of (map (λ w. string_bytes w) words.now) }
    ensures pages { IfSome result IsJob }
{
    match words {
        [word] => {
            if word.as_str() == "run" {
                Some(Job::Run)
            } else if word.as_str() == "check" {
                Some(Job::Check)
            } else if word.as_str() == "migrate" {
                Some(Job::Migrate)
            } else {
                None
            }
        }
        [word, number] => {
            if word.as_str() == "init" {
                match read_pages(number.as_str()) {
                    Some(count) => Some(Job::Init(count)),
                    None => None,
                }
            } else if word.as_str() == "sessions" {
                match read_seed(number.as_str()) {
                    Some(seed) => Some(Job::Sessions { seed }),
                    None => None,
                }
            } else {
                None
            }
        }
        [word, count, seed] => {
            if word.as_str() == "gen" {
                gen_job(read_count(count.as_str()), read_seed(seed.as_str()))
            } else {
                None
            }
        }
        _ => None,
    }
}

// The job of a count and a seed, where both are there.
fn gen_job(count: Option<u32>, seed: Option<u32>) -> Option<Job>
    requires count { IfSome count (λ n. (1 ≤ n) × (n ≤ 1000000)) }
    ensures job { result ≡ gen_job count seed }
    ensures count { IfSome result IsJob }
{
    match (count, seed) {
        (Some(count), Some(seed)) => Some(Job::Gen { count, seed }),
        _ => None,
    }
}

// The number of element pages that a word gives.
fn read_pages(text: &str) -> Option<u32>
    ensures value { result ≡ pages_in text.now }
    ensures within { IfSome result (λ n. (1 ≤ n) × (n ≤ 65536)) }
{
    match read_decimal(text.as_bytes()) {
        Some(count) => {
            if count >= 1 && count <= 65536 {
                Some(count as u32)
            } else {
                None
            }
        }
        None => None,
    }
}

// The number of edits that a word gives.
fn read_count(text: &str) -> Option<u32>
    ensures value { result ≡ count_in text.now }
    ensures within { IfSome result (λ n. (1 ≤ n) × (n ≤ 1000000)) }
{
    match read_decimal(text.as_bytes()) {
        Some(count) => {
            if count >= 1 && count <= 1_000_000 {
                Some(count as u32)
            } else {
                None
            }
        }
        None => None,
    }
}

// The seed that a word gives.
fn read_seed(text: &str) -> Option<u32>
    ensures { result ≡ seed_in text.now }
{
    match read_decimal(text.as_bytes()) {
        Some(seed) => {
            if seed <= 4_294_967_295 {
                Some(seed as u32)
            } else {
                None
            }
        }
        None => None,
    }
}

// The number that 1 to 10 digits write.
fn read_decimal(text: &[u8]) -> Option<u64>
    ensures { result ≡ decimal text.now }
{
    if text.len() >= 1 && text.len() <= 10 && are_digits(text) {
        let number = magnitude(text);
        Some(number as u64)
    } else {
        None
    }
}
