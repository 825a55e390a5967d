//! The program over the real standard input and output.
#![tactic(auto)]

use fst_command::{Status, top};
use fst_io::{InputSource, OpenGate, OutputSink};
use std::alloc::AllocError;
use std::process::ExitCode;
use std::{env, io};

// The command line's words without the program's name. A list with a word that isn't UTF-8 is no command's, and neither
// is the empty one that stands for it.
fn words(rt: &HostRuntime) -> Result<Vec<String>, AllocError> {
    let mut words = Vec::new(rt.alloc());
    match env::args(rt) {
        Ok(args) => {
            for word in args.skip(1) {
                words.push(word)?;
            }
            Ok(words)
        }
        Err(error) if error.kind() == io::ErrorKind::OutOfMemory => Err(AllocError),
        Err(_) => Ok(words),
    }
}

fn main(rt: HostRuntime) -> ExitCode {
    let status = match words(&rt) {
        Ok(words) => {
            let mut source = InputSource::new(rt.stdin());
            let mut sink = OutputSink::new(rt.stdout());
            top(&rt, rt.alloc(), &words, &mut source, &mut sink, &OpenGate)
        }
        Err(AllocError) => Status::Memory,
    };
    status.exit_code()
}
