// Reading into lent bytes.
#![tactic(auto)]

ghost use Rattle.std.specs.Prelude.{◌<◌, ◌≤◌, IfOk, length, take};
ghost use Rattle.std.specs.Io.KnownBytes.{Consumes, IsAtEnd};
ghost use Rattle.record.specs.Records.{length_in};

use std::io;
use std::io::Read;

// Reads until the bytes are full or the input ends, and tells how many were read: those at the start.
pub fn read_full<R: Read>(reader: &mut R, bytes: &mut [u8]) -> io::Result<usize>
    ensures within { IfOk result (λ n. n ≤ length bytes.new) }
    ensures read { IfOk result (λ n. Consumes (R.remaining reader.old) (R.remaining reader.new) (take n bytes.new)) }
    ensures end { IfOk result (λ n. n < length bytes.new → IsAtEnd (R.remaining reader.new)) }
{
    let mut done = 0;
    // a while, since each read tells how far it came
    while done < bytes.len() {
        let n = reader.read(&mut bytes[done..])?;
        if n == 0 {
            return Ok(done);
        }
        done += n;
    }
    Ok(done)
}

// Reads a record, as long as its version says, and hands out what there was of it.
pub fn read_record<'a, R: Read>(
    reader: &mut R,
    bytes: &'a mut [u8; record::FILLED_LENGTH],
) -> io::Result<&'a [u8]>
    ensures read { IfOk result (λ r. Consumes (R.remaining reader.old) (R.remaining reader.new) r.now) }
    ensures end { IfOk result (λ r. length r.now < length_in r.now → IsAtEnd (R.remaining reader.new)) }
{
    let n = read_full(reader, &mut bytes[..record::LENGTH])?;
    let head = &bytes[..n];
    if n < record::LENGTH || record::length_in(head) == record::LENGTH {
        return Ok(&bytes[..n]);
    }
    let more = read_full(reader, &mut bytes[record::LENGTH..])?;
    Ok(&bytes[..record::LENGTH + more])
}

#[cfg(test)]
mod tests {
    use super::*;

    // A reader that gives one byte a time, and fails once it has given them all.
    #[derive(Drop)]
    struct Failing {
        left: u8,
    }

    impl Read for Failing {
        fn read(&mut self, buf: &mut [u8]) -> io::Result<usize> {
            if self.left == 0 {
                return Err(io::Error::from(io::ErrorKind::TimedOut));
            }
            if buf.is_empty() {
                return Ok(0);
            }
            buf[0] = self.left;
            self.left -= 1;
            Ok(1)
        }
    }

    #[test]
    fn reads_on_after_a_short_read(rt: HostRuntime) -> io::Result<()> {
        let mut bytes = [0u8; 3];
        let n = read_full(&mut Failing { left: 4 }, &mut bytes)?;
        assert_eq!(rt; n, 3);
        assert!(rt; bytes == [4, 3, 2]);
        Ok(())
    }

    #[test]
    fn tells_of_a_failed_read(rt: HostRuntime) {
        let mut bytes = [0u8; 3];
        assert!(rt; read_full(&mut Failing { left: 2 }, &mut bytes).is_err());
    }

    // The bytes of a record of that version, and more behind it.
    fn input_of(version: u8) -> [u8; 200] {
        let mut bytes = [7u8; 200];
        bytes[3] = version;
        bytes[4] = 0;
        bytes
    }

    #[test]
    fn reads_no_fill_of_version_1(rt: HostRuntime) -> io::Result<()> {
        let mut bytes = [0u8; record::FILLED_LENGTH];
        let input = input_of(1);
        assert_eq!(rt; read_record(&mut input.as_slice(), &mut bytes)?.len(), 131);
        Ok(())
    }

    #[test]
    fn reads_the_fill_of_version_2(rt: HostRuntime) -> io::Result<()> {
        let mut bytes = [0u8; record::FILLED_LENGTH];
        let input = input_of(2);
        assert_eq!(rt; read_record(&mut input.as_slice(), &mut bytes)?.len(), 135);
        Ok(())
    }
}
