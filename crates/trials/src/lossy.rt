// An output whose losses stop nothing.
use std::fmt::Display;
use std::io;

// What cannot be written is lost, and what comes after it is printed all the same: a trial tells what it can.
#[derive(Clone, Copy)]
pub(crate) struct Lossy<'a, R> {
    pub out: &'a R,
}

impl<R: Print> Print for Lossy<'_, R> {
    fn print<D: Display + Drop>(&self, value: D) -> io::Result<()> {
        let _ = self.out.print(value);
        Ok(())
    }

    fn println<D: Display + Drop>(&self, value: D) -> io::Result<()> {
        let _ = self.out.println(value);
        Ok(())
    }

    fn write_all(&self, bytes: &[u8]) -> io::Result<()> {
        let _ = self.out.write_all(bytes);
        Ok(())
    }
}
