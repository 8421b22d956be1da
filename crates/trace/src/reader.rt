//! A reader of traces.
ghost use Rattle.std.specs.Prelude.{◌≤◌, length};

mod parts;
mod steps;

/// The bytes of a trace and a place in them, up to which records have been read. The last of these begins at `start`.
// No model, since a type with a lifetime would lose Copy by it: no plainer than `cursor` in specs/, which shows all its fields.
#[derive(Clone, Copy, Debug)]
pub struct TraceReader<'a> {
    bytes: &'a [u8],
    start: usize,
    place: usize,
    ghost ordered: { start ≤ place },
    ghost inside: { place ≤ length bytes.now },
}
