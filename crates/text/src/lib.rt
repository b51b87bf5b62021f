// What the programs share: reading an input into a buffer, and putting text behind what stands in a vector of fixed room. Each function on
// vectors says every byte that it puts. Who calls hands over the reader: the programs take standard input. Assumes what no contract can
// speak of, of the system's read: that the buffer is given the bytes of standard input, and that a read which fails is answered by an error;
// and of its write that what is handed over is written. Text is put by hand and not by `Display`, whose contract says nothing of when it
// fails: no caller could be promised that the text is there.
#![tactic(auto)]

ghost use Rattle.std.specs.Prelude.{◌≡◌, ◌<◌, ◌≤◌, ◌+◌, ◌++◌, length, take, Err, IfOk};
ghost use Rattle.std.specs.Io.{ReadsAtMost};
ghost use Rattle.std.specs.Io.KnownBytes.{Consumes, IsAtEnd};
ghost use Rattle.arrayvec.specs.ArrayVec.{array_vec_len};
ghost use Rattle.rules.specs.Program.{decimal, line};
ghost use Rattle.text.specs.Came.{came};

pub mod in_slice;

use arrayvec::ArrayVec;
use rules::Refusal;
use std::io::{Error, Read};

// Reads an input to its end, or as far as the buffer has room. A read that fails is not the end of the input.
#[tactic(auto, using(crate::proofs::Turns::read_on))]
pub fn read_input<R: Read>(reader: &mut R, buffer: &mut [u8]) -> Result<usize, Error>
    ensures within { ReadsAtMost result buffer.new }
    ensures bytes { IfOk result (λ n. Consumes (R.remaining reader.old) (R.remaining reader.new) (take n buffer.new)) }
    ensures end { IfOk result (λ n. n < length buffer.new → IsAtEnd (R.remaining reader.new)) }
{
    let mut n = 0;
    // No plainer in the library: `read_to_end` wants a Vec (no heap), and `read_exact` does not say how many bytes came.
    while n < buffer.len() {
        match what_came(reader.read(&mut buffer[n..]))? {
            None => break,
            Some(k) => n += k,
        }
    }
    Ok(n)
}

// What the reader's answer means: so many bytes, or with 0 the end of the input. A failure stays one. `read_input` can say of a failure only
// that it may come, since a reader may fail at any time: that nothing else is taken for one is said here.
fn what_came(answer: Result<usize, Error>) -> Result<Option<usize>, Error>
    ensures { result ≡ came answer }
{
    match answer {
        Ok(0) => Ok(None),
        Ok(k) => Ok(Some(k)),
        Err(e) => Err(e),
    }
}

// Room for the longest input that may pass and one byte more: an input that fills it is too long, whatever else follows.
pub fn buffer() -> [u8; 65537]
    ensures { 65537 ≡ length result }
{
    [0; 65537]
}

// Puts a piece behind what is there.
pub fn put<const N: usize>(piece: &[u8], out: &mut ArrayVec<u8, N>)
    requires { array_vec_len out.old + length piece.now ≤ N }
    ensures items { out.new.items ≡ out.old.items ++ piece.now }
    ensures len { array_vec_len out.new ≡ array_vec_len out.old + length piece.now }
{
    out.try_extend_from_slice(piece).unwrap();
}

// Puts a number in decimal there. The kit spells it in a buffer of its own.
pub fn put_decimal<const N: usize>(x: u64, out: &mut ArrayVec<u8, N>)
    requires { array_vec_len out.old + 20 ≤ N }
    ensures items { out.new.items ≡ out.old.items ++ decimal x }
    ensures room { array_vec_len out.new ≤ array_vec_len out.old + 20 }
{
    let mut digits = [0u8; 20];
    let k = io::decimal(x, &mut digits);
    put(&digits[..k], out);
}

// Puts the line for a refusal there. No plan count shows in it.
pub fn put_refusal<const N: usize>(why: Refusal, out: &mut ArrayVec<u8, N>)
    requires { array_vec_len out.old + 71 ≤ N }
    ensures items { out.new.items ≡ out.old.items ++ line 0 (Err why) }
    ensures room { array_vec_len out.new ≤ array_vec_len out.old + 71 }
{
    let place = places::place(why);
    put(b"refused ", out);
    put_decimal(u64::from(place.number), out);
    out.push(b' ');
    put_decimal(u64::from(place.step), out);
    out.push(b' ');
    put_decimal(u64::from(place.plan), out);
    out.push(b'\n');
}
