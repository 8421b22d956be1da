//! A trace, read record by record.
ghost use Rattle.std.specs.Prelude.{◌≡◌};
ghost use Rattle.trace.specs.Reader.{cursor, after, next, told, Finds};
ghost use Rattle.trace.specs.Spelling.{Unambiguous};

use crate::fault::ReadFault;
use crate::reader::TraceReader;
use crate::reading::read_front;
use records::Record;

impl TraceReader<'_> {
    /// The record at the place, which it passes, or none at the end. A refusal leaves the place.
    pub fn next_record(&mut self) -> Result<Option<Record>, ReadFault>
        ensures answer { told result ≡ next (cursor self.old) }
        ensures after { cursor self.new ≡ after (cursor self.old) }
        ensures finds { Finds (cursor self.old) (told result) (cursor self.new) }
        ensures unambiguous { Unambiguous }
    {
        let place = self.place;
        let Some(front) = read_front(&self.bytes[place..], place)? else {
            return Ok(None);
        };
        self.start = place;
        self.place = place + front.size;
        Ok(Some(front.found))
    }
}
