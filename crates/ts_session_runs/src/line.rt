// The line before each reply.
ghost use Rattle.std.specs.Prelude.{◌≡◌, ◌≤◌, ◌<◌};
ghost use Rattle.ts_sessions.specs.Steps.{session_line};

/// The line of a session, counted from 1; there are at most 16.
#[tactic(auto, unfolding(ts_sessions::specs::Steps::session_line))]
pub(crate) fn session_line(number: usize) -> &'static [u8]
    requires some { 0 < number }
    requires most { number ≤ 16 }
    ensures { result.now ≡ session_line number }
{
    match number {
        1 => b"session 1\n",
        2 => b"session 2\n",
        3 => b"session 3\n",
        4 => b"session 4\n",
        5 => b"session 5\n",
        6 => b"session 6\n",
        7 => b"session 7\n",
        8 => b"session 8\n",
        9 => b"session 9\n",
        10 => b"session 10\n",
        11 => b"session 11\n",
        12 => b"session 12\n",
        13 => b"session 13\n",
        14 => b"session 14\n",
        15 => b"session 15\n",
        16 => b"session 16\n",
        _ => unreachable!(),
    }
}
