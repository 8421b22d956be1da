//! Reading a whole trace.
ghost use Rattle.std.specs.Prelude.{◌≡◌, map, None, MatchResult};
ghost use Rattle.records.specs.Meaning.{instance};
ghost use Rattle.trace.specs.Traces.{EndedBy, FindsAll, SpellAll, Stops, whole};

use crate::fault::TraceFault;
use crate::reader::TraceReader;
use records::Record;
use std::alloc::Global;

/// The records of a trace, or the refusal at the first place where no record is spelled.
#[tactic(auto, using(crate::proofs::Walks::finds_all))]
pub fn read_trace(heap: Global, bytes: &[u8]) -> Result<Vec<Record>, TraceFault>
    ensures answer { MatchResult result (λ v. whole bytes.now ≡ record { taken = map instance v.items; stop = None }) (λ e. EndedBy e (whole bytes.now)) }
    ensures spelled { MatchResult result (λ v. SpellAll bytes.now (map instance v.items)) (λ e. Stops e bytes.now) }
    ensures exact { FindsAll bytes.now }
{
    let mut reader = TraceReader::new(bytes);
    let mut records = Vec::new(heap);
    while let Some(record) = reader.next_record()? {
        records.push(record)?;
    }
    Ok(records)
}
