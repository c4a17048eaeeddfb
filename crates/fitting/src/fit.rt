// The plan in the order that was found, where it fits.
ghost use Rattle.std.specs.Prelude.{◌≡◌, length, leb};
ghost use Rattle.gathering.specs.Places.{Places};
ghost use Rattle.gathering.specs.Rounds.{Scheduling};
ghost use Rattle.fitting.specs.Planner.{fitted};
ghost use Rattle.gathering.specs.Accepts.{Accepts};
ghost use Rattle.fitting.specs.Entry.{plan_on, planned_result};

use gathering::below::{Refusal, Scheduled, Text};
use plan_text::below::count_steps;
use plan_text::text::{plan_size, write_plan};

// What a plan that is written counts.
#[derive(Clone, Copy, PartialEq, Eq)]
pub struct Written {
    pub bytes: usize,
    pub steps: usize,
    pub tallied: usize,
    pub rejected: usize,
}

// The bytes of the longest plan.
pub const PLAN_MOST: usize = 20565;

// Whether the plan fits into so much room. With room for the longest nothing is measured.
fn fits(sheet: &[u8], from: &[u16], n: usize, s: Scheduled, room: usize) -> bool
    requires accepts { Accepts sheet.now }
    requires places { Places sheet.now from.now n }
    requires scheduling { Scheduling sheet.now s }
    ensures { result ≡ leb (length (plan_on sheet.now).text) room }
{
    PLAN_MOST <= room || plan_size(sheet, from, n, &s.order, s.count) <= room
}

// The plan by the order that was found, where it fits.
pub fn plan_in_order(
    sheet: &[u8],
    from: &[u16],
    n: usize,
    s: Scheduled,
    out: &mut [u8],
) -> Result<Written, Refusal>
    requires accepts { Accepts sheet.now }
    requires places { Places sheet.now from.now n }
    requires scheduling { Scheduling sheet.now s }
    ensures { planned_result result out.new ≡ fitted (plan_on sheet.now) out.old }
{
    if !fits(sheet, from, n, s, out.len()) {
        return Err(Refusal {
            number: 8,
            text: Text::Query,
            line: 0,
        });
    }
    let steps = count_steps(sheet, from, n, &s.order, s.count);
    let bytes = write_plan(
        sheet, from, n, &s.order, s.count, steps, s.tallied, s.rejected, out,
    );
    let written = Written {
        bytes,
        steps,
        tallied: s.tallied,
        rejected: s.rejected,
    };
    Ok(written)
}
