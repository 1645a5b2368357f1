// The list: what it holds is read into buffers, and the head of a case.
use cases::HEAD;
use std::io::Read;

// Whether a buffer could be filled from the list.
pub(crate) fn filled(list: &mut impl Read, buf: &mut [u8]) -> bool {
    list.read_exact(buf).is_ok()
}

// The next case's head; zeros past the end of the list.
pub(crate) fn head(list: &mut impl Read) -> [u8; HEAD] {
    let mut bytes = [0; HEAD];
    filled(list, &mut bytes);
    bytes
}
