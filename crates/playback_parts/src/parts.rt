// Values of a line, as many at a time as the lent bytes have room for.
ghost use Rattle.std.specs.Prelude.{◌≤◌, length};
ghost use Rattle.playback_parts.specs.Parts.{PartPut};

// How many bytes were written, and how many values: none where the line has ended.
#[derive(Clone, Copy)]
pub struct Part {
    pub bytes: usize,
    pub next: Option<usize>,
}

// Of the values as many as fit, or the line's end where none is left.
pub fn put_part(text: &mut [u8], values: &[f32]) -> Part
    requires { 9 ≤ length text.old }
    ensures { PartPut values.now text.old text.new result }
{
    if values.is_empty() {
        text[0] = b'\n';
        return Part {
            bytes: 1,
            next: None,
        };
    }
    let n = lines::put_values(text, values);
    Part {
        bytes: 9 * n,
        next: Some(n),
    }
}
