//! What a script expects of a world as it is.

ghost use Rattle.std.specs.Prelude.{IfOk, OnOk, option_map};
ghost use Rattle.site_run.specs.Judged.{IsJudged, IsReadOf};
ghost use Rattle.site_verdicts.specs.Judged.{IsJudgedBy};

use primitives::{PropertyReference, Reply, Request};
use site_history::World;
use site_verdicts::{Expectation, Refusals, Seen, Verdicts};
use std::alloc::{AllocError, Allocator};

/// Judges what is expected, by the line of this number if one does, of a world where so much was refused.
///
/// # Errors
/// Want of memory.
#[tactic(auto, using(crate::proofs::JudgeLaws::judge_laws))]
pub(crate) fn judge<A: Allocator + Copy>(
    world: &World<A>,
    expected: &Expectation<A>,
    line: Option<u64>,
    refusals: Refusals,
    verdicts: &mut Verdicts<A>,
) -> Result<(), AllocError>
    ensures { OnOk result (IsJudged expected.now world.now verdicts.old verdicts.new) }
{
    let read = read_now(world, expected)?;
    judge_seen(world, expected, line, refusals, read.as_ref(), verdicts)?;
    Ok(())
}

/// Judges what is expected, where the property that it asks for reads so.
fn judge_seen<'a, A: Allocator + Copy>(
    world: &'a World<A>,
    expected: &Expectation<A>,
    line: Option<u64>,
    refusals: Refusals,
    read: Option<&'a Reply<A>>,
    verdicts: &mut Verdicts<A>,
) -> Result<(), AllocError>
    ensures { OnOk result (IsJudgedBy expected.now world.now.history refusals.count
        (option_map (λ r. r.now) read.entry) verdicts.old verdicts.new) }
{
    let seen = Seen {
        history: world.history(),
        stations: world.site().stations(),
        refusals,
        read,
    };
    verdicts.judge(expected, line, seen)
}

/// What the property that an expectation asks for reads now at its device, if there is one.
#[tactic(auto, using(crate::proofs::JudgeLaws::read_laws))]
fn read_now<A: Allocator + Copy>(
    world: &World<A>,
    expected: &Expectation<A>,
) -> Result<Option<Reply<A>>, AllocError>
    ensures { IfOk result (IsReadOf expected.now world.now) }
{
    match expected {
        Expectation::Reads {
            station,
            object,
            property,
            ..
        } => {
            let Some(table) = world.table(station.as_slice()) else {
                return Ok(None);
            };
            let PropertyReference { property, index } = *property;
            let object = *object;
            let reply = table.reply(&Request::Read {
                object,
                property,
                index,
            })?;
            Ok(Some(reply))
        }
        Expectation::Closed { .. } | Expectation::Executed { .. } | Expectation::NoneRefused => {
            Ok(None)
        }
    }
}
