//! What a program does with the file that it is given.
#![tactic(auto)]

ghost use Rattle.std.specs.Prelude.{◌≡◌, ◌≤◌, IfOk, vec_len};
ghost use Rattle.std.specs.Process.{exit_status};
ghost use Rattle.files.specs.Made.{MakesOfFront};

use anyhow::anyhow;
use std::alloc::{AllocError, Global};
use std::fs::File;
use std::io::Read;
use std::process::ExitCode;
use std::{env, io};

/// A program reads at most so many bytes of a file; what stands behind them does not count.
const MOST: usize = 65535;

/// The first 65,535 bytes of a file, or all of a shorter one.
pub fn read_front(rt: &HostRuntime, path: &str) -> io::Result<Vec<u8>>
    ensures { IfOk result (λ v. vec_len v ≤ 65535) }
{
    let file = File::open(rt, path)?;
    let mut bytes = Vec::new(rt.alloc());
    file.take(MOST as u64).read_to_end(&mut bytes)?;
    bytes.truncate(MOST);
    Ok(bytes)
}

/// The same as `print_made`, but for an error of memory, of printing or of the arguments.
fn try_print_made<F: FnOnce(Global, &[u8]) -> Result<String, AllocError>>(
    rt: &HostRuntime,
    program: &str,
    make: F,
) -> anyhow::Result<ExitCode>
    requires { F.IsAlwaysCallable make }
    ensures { IfOk result (λ code. exit_status code ≡ 0 → MakesOfFront (F.post make)) }
{
    let mut args = env::args(rt)?;
    let _program = args.next();
    let Some(path) = args.next() else {
        return Err(anyhow!("usage: {program} FILE"));
    };
    let bytes = match read_front(rt, path.as_str()) {
        Ok(bytes) => bytes,
        Err(why) => {
            // printed here and not by way of an error, which would keep 120 bytes of it
            eprintln!(rt; "{program}: cannot read {path}: {why}")?;
            return Ok(ExitCode::FAILURE);
        }
    };
    let text = make(rt.alloc(), bytes.as_slice())?;
    rt.print(text.as_str())?;
    Ok(ExitCode::SUCCESS)
}

/// All of a program that prints what `make` makes of the file that it is given, of its first
/// 65,535 bytes. Only a program that has printed it ends with status 0; any other says why not, on
/// the standard error.
pub fn print_made<F: FnOnce(Global, &[u8]) -> Result<String, AllocError>>(
    rt: &HostRuntime,
    program: &str,
    make: F,
) -> ExitCode
    requires { F.IsAlwaysCallable make }
    ensures { exit_status result ≡ 0 → MakesOfFront (F.post make) }
{
    match try_print_made(rt, program, make) {
        Ok(code) => code,
        Err(why) => {
            let _ = eprintln!(rt; "{program}: {why}");
            ExitCode::FAILURE
        }
    }
}
