// The reply of the second entry, and its match as a line.
ghost use Rattle.std.specs.Prelude.{◌≡◌, [], Ok};
ghost use Rattle.bindings.specs.Envs.{env_of};
ghost use Rattle.bindings.specs.Run.{match_line, line_text};
ghost use Rattle.entries.specs.Outcomes.{reply_of};
ghost use Rattle.run_answers.specs.Replied.{placed, Tells};

use bindings::env::Env;
use entries::below::Refusal;
use entries::some::Reply;
use hex_lines::reader::line_from;
use hexadecimal::line::byte_at;
use match_lines::lines::{line_length, write_match};
use packing::refusal;

// Writes the line of a match where it has room; the plan's header gives the counts.
fn place_line(plan: &[u8], env: Env, out: &mut [u8])
    ensures { out.new ≡ placed (line_text (match_line plan.now (env_of [] [] env))) out.old }
{
    let header = line_from(plan, 0);
    let n = byte_at(header, 1);
    let m = byte_at(header, 3);
    let need = line_length(n, m);
    if out.len() < need {
        return;
    }
    write_match(&env.classes, &env.literals, n, m, out);
}

// The reply of a run that is not refused as one number; the line of a match is written where it has room.
fn told_reply(reply: Reply, plan: &[u8], out: &mut [u8]) -> u64
    ensures { Tells (reply_of plan.now (Ok reply)) out.old out.new result }
{
    match reply {
        Reply::None => 0,
        Reply::Spent => 1,
        Reply::Match(env) => {
            place_line(plan, env, out);
            2
        }
    }
}

// The reply as one number, or the refusal.
pub fn told(reply: Result<Reply, Refusal>, plan: &[u8], out: &mut [u8]) -> u64
    ensures { Tells (reply_of plan.now reply) out.old out.new result }
{
    match reply {
        Ok(reply) => told_reply(reply, plan, out),
        Err(f) => refusal(f.number, f.text_number(), f.line),
    }
}
