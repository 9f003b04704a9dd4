// What a reply says.
ghost use Rattle.std.specs.Prelude.{◌≡◌, ◌++◌, OnOk, OnErr};
ghost use Rattle.ts_answer.specs.Reply.{ok_line, refusal_line};
ghost use Rattle.ts_row.specs.Row.{Extends};

use crate::say_values::say_number;
use std::alloc::AllocError;
use ts_base::{Refusal, Reply};

/// Says that a command was carried out.
#[tactic(auto, unfolding(ts_answer::specs::Reply::ok_line))]
pub fn say_ok(out: &mut Reply) -> Result<(), AllocError>
    ensures ok { OnOk result (out.new ≡ out.old ++ ok_line) }
    ensures err { OnErr result (Extends out.old out.new) }
{
    out.extend_from_slice(b"ok\n")
}

/// Says why a command was refused.
#[tactic(auto, unfolding(ts_answer::specs::Reply::refusal_line))]
pub fn say_refusal(out: &mut Reply, refusal: &Refusal) -> Result<(), AllocError>
    ensures ok { OnOk result (out.new ≡ out.old ++ refusal_line refusal.now) }
    ensures err { OnErr result (Extends out.old out.new) }
{
    out.extend_from_slice(b"error ")?;
    say_number(out, refusal.code() as u64)?;
    out.extend_from_slice(b" ")?;
    out.extend_from_slice(refusal.name())?;
    out.extend_from_slice(b"\n")
}
