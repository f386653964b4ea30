// The lines of the script.
ghost use Rattle.std.specs.Prelude.{◌≡◌, ◌++◌, OnOk, string_bytes};
ghost use Rattle.std.specs.List.{flat_map, range_with_len};
ghost use Rattle.trial.specs.Rounds.{hosts};
ghost use Rattle.trial.specs.Workload.{keep_line, keep_lines, ask_lines};

use crate::rounds::HOSTS;
use std::alloc::AllocError;
use std::fmt::Write;

/// Behind the first batch, the lines that keep the first event of each host.
pub fn push_keeps(script: &mut String, batch: u32) -> Result<(), AllocError>
    ensures { OnOk result (string_bytes script.new ≡ string_bytes script.old ++ keep_lines batch) }
{
    if batch != 1 {
        return Ok(());
    }
    push_all_keeps(script)
}

fn push_all_keeps(script: &mut String) -> Result<(), AllocError>
    ensures { OnOk result (string_bytes script.new ≡ string_bytes script.old ++ flat_map keep_line hosts) }
{
    for host in 0..HOSTS {
        push_keep(script, host)?;
    }
    Ok(())
}

fn push_keep(script: &mut String, host: u32) -> Result<(), AllocError>
    ensures { OnOk result (string_bytes script.new ≡ string_bytes script.old ++ keep_line host) }
{
    write!(script, "keep h{host}#1\n")
}

/// The lines that ask for the first event of each host but the first.
pub fn push_asks(script: &mut String) -> Result<(), AllocError>
    ensures { OnOk result (string_bytes script.new ≡ string_bytes script.old ++ flat_map ask_lines (range_with_len 1 7)) }
{
    for host in 1..HOSTS {
        push_ask(script, host)?;
    }
    Ok(())
}

fn push_ask(script: &mut String, host: u32) -> Result<(), AllocError>
    ensures { OnOk result (string_bytes script.new ≡ string_bytes script.old ++ ask_lines host) }
{
    write!(script, "interval h0#1 h{host}#1\ntime h{host}#1\n")
}
