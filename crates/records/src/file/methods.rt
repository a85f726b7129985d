ghost use Rattle.std.specs.Prelude.{◌≡◌, ◌≤◌, length};
ghost use Rattle.records.specs.Files.{bytes_of, IsFile, Limited};

use crate::file::{File, MAX_FILE};
use crate::refusal::Refusal;

impl<'a> File<'a> {
    // Whether the bytes can be a file: refused where there are more than 32,768.
    pub fn check(bytes: &[u8]) -> Result<(), Refusal>
        ensures { Limited bytes.now result }
    {
        if bytes.len() > MAX_FILE {
            return Err(Refusal::FileTooLong);
        }
        Ok(())
    }

    // The bytes as a file, once `check` has taken them.
    pub fn new(bytes: &'a [u8]) -> File<'a>
        requires { length bytes.now ≤ 32768 }
        ensures { bytes_of result ≡ bytes.now }
    {
        File { bytes }
    }

    // The bytes of the file.
    pub fn bytes(&self) -> &'a [u8]
        ensures value { result.now ≡ bytes_of self.now }
        ensures bound { length result.now ≤ 32768 }
    {
        self.bytes
    }
}

// The bytes as a file; refused where there are more than 32,768.
impl<'a> TryFrom<&'a [u8]> for File<'a> {
    type Error = Refusal;

    ghost try_from_gives = { IsFile };

    fn try_from(bytes: &'a [u8]) -> Result<File<'a>, Refusal> {
        File::check(bytes)?;
        Ok(File::new(bytes))
    }
}
