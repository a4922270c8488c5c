//! The program `hpat`: it runs a script on simulated ranks that exchange messages.
#![tactic(auto)]

#[cfg(test)]
mod cut_tests;
#[cfg(test)]
mod outside_tests;
#[cfg(test)]
mod row_tests;
#[cfg(test)]
mod seq_tests;
#[cfg(test)]
mod tests;
#[cfg(test)]
mod worked;

use hp_command::hpat::hpat;
use hp_outside::files::host::HostFiles;
use hp_outside::sinks::host::HostSink;
use std::alloc::Global;
use std::env;
use std::io::{self, ErrorKind};
use std::process::ExitCode;
use std::rt::Env;

// The words after the program's name. A word that is no text makes them of no form.
fn words_of(rt: &(impl Env + AllocGlobal)) -> Result<Vec<String>, io::Error> {
    let mut words = Vec::new(rt.alloc());
    match env::args(rt) {
        Ok(args) => {
            for word in args.skip(1) {
                words.push(word)?;
            }
            Ok(words)
        }
        Err(error) => match error.kind() {
            ErrorKind::InvalidData => Ok(words),
            _ => Err(error),
        },
    }
}

fn main(rt: HostRuntime) -> ExitCode {
    let Ok(words) = words_of(&rt) else {
        let _ = eprintln!(rt; "out of memory");
        return ExitCode::from(8);
    };
    let mut files = HostFiles::new(&rt);
    let mut out = HostSink::new(io::writer(&rt));
    let mut err = HostSink::new(rt.stderr());
    let report = hpat(rt.alloc(), &words, &mut files, &mut out, &mut err);
    ExitCode::from(report.status)
}
