// Files of vectors: WVEC, version 1, u32 count of cases, and the cases, each after its u32 length.
ghost use Rattle.std.specs.Prelude.{◌≡◌, ◌<◌, ◌≤◌, length, IfOk};
ghost use Rattle.vectors.specs.Rests.{LosesFront};

use crate::fields::u32_at;
use std::io;
use std::io::Read;

// Reads until the buffer is full or the file ends, and answers how many bytes it put at the front. Here and below an error is one that a read of the file
// met: what was read before it stands at the front of the buffer, and the file goes on behind that.
fn read_full<R: Read>(file: &mut R, buffer: &mut [u8]) -> io::Result<usize>
    ensures bound { IfOk result (λ n. n ≤ length buffer.new) }
    ensures rest { LosesFront (R.remaining file.old) (R.remaining file.new) }
{
    let mut done = 0;
    while done < buffer.len() {
        let n = file.read(&mut buffer[done..])?;
        if n == 0 {
            break;
        }
        done += n;
    }
    Ok(done)
}

// How many cases the file has that starts here.
pub fn case_count<R: Read>(file: &mut R) -> io::Result<u64>
    ensures bound { IfOk result (λ n. n < 4294967296) }
    ensures rest { LosesFront (R.remaining file.old) (R.remaining file.new) }
{
    let mut head = [0; 9];
    read_full(file, &mut head)?;
    Ok(u32_at(&head, 5))
}

fn next_length<R: Read>(file: &mut R) -> io::Result<usize>
    ensures { LosesFront (R.remaining file.old) (R.remaining file.new) }
{
    let mut head = [0; 4];
    read_full(file, &mut head)?;
    Ok(u32_at(&head, 0) as usize)
}

// The next case, read into a buffer; nothing where the file ends before the case does, or the buffer.
pub fn next_case<'a, R: Read>(file: &mut R, buffer: &'a mut [u8]) -> io::Result<&'a [u8]>
    ensures bound { IfOk result (λ case. length case.now ≤ length buffer.old) }
    ensures rest { LosesFront (R.remaining file.old) (R.remaining file.new) }
{
    let n = next_length(file)?;
    let Some(case) = buffer.get_mut(..n) else {
        return Ok(&[]);
    };
    if read_full(file, case)? < n {
        return Ok(&[]);
    }
    Ok(case)
}
