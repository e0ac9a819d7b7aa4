//! A law of the definitions, which no function computes.
ghost use Rattle.recu.specs.Starts.{StartsAreRuns};

use rec_disk::Disk;
use rec_files::DiskHome;
use rec_tools::Home;

/// From a file and a journal on a disk that stand for a state of the machine, command lines that are carried out there one after
/// another are a run of the machine.
pub fn starts_are_runs<D: Disk + Drop>()
    ensures guarantee { StartsAreRuns D.Disk ⟦<DiskHome<'static, HostRuntime, D> as Home>⟧.goes }
{}
