// Bytes and refusals as text.
use records::refusal::Refusal;
use std::fmt;

// Bytes: how many, and each of them in hexadecimal.
// A wrapper, since a slice's own type, which it prints, is std's.
#[derive(Clone, Copy)]
pub(crate) struct Bytes<'a>(pub &'a [u8]);

impl fmt::Display for Bytes<'_> {
    fn fmt<W: fmt::Write>(&self, f: &mut fmt::Formatter<W>) -> fmt::Result {
        let bytes = self.0;
        match bytes.len() {
            0 => write!(f, "no bytes")?,
            1 => write!(f, "1 byte:")?,
            count => write!(f, "{count} bytes:")?,
        }
        for byte in bytes {
            write!(f, " {byte:02x}")?;
        }
        Ok(())
    }
}

// A refusal: its two numbers, and the cause in words.
// A wrapper, since `records`, whose type it prints, is another crate, and prints the cause alone.
#[derive(Clone, Copy)]
pub(crate) struct Refused(pub Refusal);

impl fmt::Display for Refused {
    fn fmt<W: fmt::Write>(&self, f: &mut fmt::Formatter<W>) -> fmt::Result {
        let refusal = self.0;
        write!(
            f,
            "refused {} {}: {refusal}",
            refusal.number(),
            refusal.second()
        )
    }
}
