// A reader of fields over the bytes of a file.
ghost use Rattle.std.specs.Prelude.{◌≤◌, length};

mod fields;
mod lines;

#[derive(Drop)]
pub struct Reader<'a> {
    input: &'a [u8],
    at: usize,
    ghost within: { at ≤ length input.now },
}
