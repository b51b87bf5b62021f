// Puts bytes into a lent slice, a piece behind the other: each contract says every byte of the slice, also those past the new end, which
// stay. Every function costs O(1) a byte that it puts. Assumes that there is room.
// A slice with its end beside it, and no writer: the C interface lends the output, and `Appended` is over every byte of that slice.
#![tactic(auto)]

ghost use Rattle.std.specs.Prelude.{[], ◌∷◌, ◌+◌, ◌<◌, ◌≤◌, length};
ghost use Rattle.output.specs.Output.{Appended};

// Puts a piece behind the first `at` bytes of `out`, and answers the new end.
pub fn put(piece: &[u8], out: &mut [u8], at: usize) -> usize
    requires { at + length piece.now ≤ length out.old }
    ensures { Appended out.old at piece.now out.new result }
{
    let end = at + piece.len();
    out[at..end].copy_from_slice(piece);
    end
}

// Puts one byte there.
pub fn put_byte(x: u8, out: &mut [u8], at: usize) -> usize
    requires { at < length out.old }
    ensures { Appended out.old at (x ∷ []) out.new result }
{
    out[at] = x;
    at + 1
}
