// Texts that the cases are run on.

ghost use Rattle.std.specs.Prelude.{◌≡◌, ◌+◌, ◌-◌, ◌*◌, min, length};

// Puts as many bytes as there is room for; the place after them.
pub fn put_bytes(text: &mut [u8], at: usize, bytes: &[u8]) -> usize
    ensures { result ≡ at + min (length bytes.now) (length text.old - at) }
{
    if text.len() < at {
        return at;
    }
    let n = bytes.len().min(text.len() - at);
    text[at..at + n].copy_from_slice(&bytes[..n]);
    at + n
}

// Puts a word a number of times, as far as there is room for it; the place after them.
pub fn put_times(text: &mut [u8], at: usize, word: &[u8], times: usize) -> usize
    ensures { result ≡ at + min (times * length word.now) (length text.old - at) }
{
    let mut next = at;
    for _ in 0..times {
        next = put_bytes(text, next, word);
    }
    next
}

// A text of a header, a word a number of times, and a last word, as far as there is room for it.
pub fn make_text<'a>(
    room: &'a mut [u8],
    header: &[u8],
    word: &[u8],
    times: usize,
    last: &[u8],
) -> &'a [u8]
    ensures { length result.now ≡ min (length header.now + times * length word.now + length last.now) (length room.old) }
{
    let start = put_bytes(room, 0, header);
    let end = put_times(room, start, word, times);
    let n = put_bytes(room, end, last);
    &room[..n]
}
