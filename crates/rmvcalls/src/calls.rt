// A call: its arguments are taken off its bytes, it is made, and what it answers is put behind its number.
use crate::answers::{Out, Put};
use crate::args::{Args, Take};
use crate::no_call::NoCall;

// The longest memory that a call may change.
pub(crate) const ROOM: usize = 65536;

#[derive(Drop)]
pub(crate) struct Call<'a> {
    args: Args<'a>,
    out: &'a mut Out,
}

impl<'a> Call<'a> {
    pub(crate) fn new(bytes: &'a [u8], out: &'a mut Out) -> Call<'a> {
        Call {
            args: Args::new(bytes),
            out,
        }
    }

    // Calls f, which changes no memory.
    pub(crate) fn ask<A: Take<'a> + Drop, R: Put, F: FnOnce(A) -> R + Drop>(
        &mut self,
        f: F,
    ) -> Result<(), NoCall>
        requires { F.IsAlwaysCallable f }
    {
        let given = self.args.take()?;
        self.args.end()?;
        self.out.put(f(given));
        Ok(())
    }

    // Calls f, which may change a memory, the rest of the line: it is lent in a room of its own, and put behind the answer.
    pub(crate) fn change<A: Take<'a> + Drop, R: Put, F: FnOnce(A, &mut [u8]) -> R + Drop>(
        &mut self,
        f: F,
    ) -> Result<(), NoCall>
        requires { F.IsAlwaysCallable f }
    {
        let given = self.args.take()?;
        let rest = self.args.rest();
        let mut room = [0u8; ROOM];
        let memory = room.get_mut(..rest.len()).ok_or(NoCall::Length)?;
        memory.copy_from_slice(rest);
        self.out.put(f(given, memory));
        self.out.put(&*memory);
        Ok(())
    }
}
