//! The command `serve`: one process for clients over HTTP, browsers, stations and operators. Here
//! it is set up: its database, log, kept space and doors; `serve_sockets` serves.
ghost use Rattle.std.specs.Prelude.{◌≡◌, ◌⊎◌, IfOk, IsErr, OnOk, map, option_map};
ghost use Rattle.std.specs.List.{list_any};
ghost use Rattle.serve_peers.specs.Journals.{hosts_of, store_of};
ghost use Rattle.serve_sockets.specs.Doors.{speech_of};
ghost use Rattle.serve_sockets.specs.EndToEnd.{IsFresh, IsWhole};
ghost use Rattle.serve_sockets.specs.Halls.{IsEmpty, doors_of, guests_of};
ghost use Rattle.cli_program.specs.AnsweredHosts.{hosts_for, is_page_port, is_port, with_own};
ghost use Rattle.cli_program.specs.SpokenDoors.{AreSpoken, IsSpokenAt, ServesAsked};

use crate::database::serve_on_database;
use crate::serving_command::ServingCommand;
use cli_databases::CopyFiles;
use cli_words::{Address, Fault, MEMORY, ServedDoor, Serving, Visitors};
use room_store::Store;
use serve_log::{EventLog, LogFile};
use serve_peers::{Copies, PageRules, Served};
use serve_sockets::{Door, Entrance, Hall, Kind, moment};
use serve_space::Spare;
use sqlite::{Alter, Connection};
use std::alloc::{AllocError, Global};
use std::hash::RandomState;
use std::io;
use std::io::Write;

/// Serves everybody until an operator asks it to end, or a signal ends the process. It fails where
/// it can't begin, or the system fails. Once all can connect it writes a line: `serving`, and
/// ` VISITORS=ADDRESS` for each door. A log that can't be opened is the system's failure.
pub fn serve<W: Write>(rt: &HostRuntime, asked: &Serving<'_>, output: &mut W) -> Result<(), Fault> {
    let moment = moment(rt).ok_or(Fault::Io)?;
    let mut command = ServeCommand {
        asked,
        moment,
        hall: None,
    };
    serve_on_database(rt, asked.database, &mut command, output)
}

/// By which names this machine calls itself (RFC 6761 section 6.3).
const OWN_HOSTS: &str = "localhost,127.0.0.1,[::1]";

/// The command `serve`, begun at a moment, and its hall once that is open.
struct ServeCommand<'a> {
    asked: &'a Serving<'a>,
    moment: u64,
    /// Stays until the file is closed, so that a connection that asked for the end sees it last.
    hall: Option<Hall>,
}

// In the place of `#[derive(Drop)]`, so that no caller proves again how each part is dropped.
impl Drop for ServeCommand<'_> {
    fn drop(self) {
        let ServeCommand {
            asked: _,
            moment: _,
            hall: _,
        } = self;
    }
}

impl ServingCommand for ServeCommand<'_> {
    /// Serves at the doors, and hands back the connection to the database, which is still open. All
    /// that was served is one whole, from what came on each connection to what a crash finds, and at
    /// each door is spoken what its word names it for. Where the command can't begin nothing was
    /// served.
    fn serve<S: Alter + Drop, W: Write>(
        &mut self,
        rt: &HostRuntime,
        store: Store<S>,
        output: &mut W,
    ) -> (Connection<S>, Result<(), Fault>)
        ensures whole { ServesAsked S.Store self.old.asked.now store result.0
            ⊎ (IsErr result.1 × (result.0 ≡ store)) }
    {
        let mut served = Served::new(rt.alloc(), store, self.moment);
        let ended = serve_at_doors(rt, &mut served, self.asked, &mut self.hall, output);
        (served.close(), ended)
    }
}

/// Sets up what the command asks for, and serves at the doors until that ends. The hall is handed
/// out in `kept`. An error before that leaves the tables as they were.
fn serve_at_doors<S: Alter, W: Write>(
    rt: &HostRuntime,
    served: &mut Served<S>,
    asked: &Serving<'_>,
    kept: &mut Option<Hall>,
    output: &mut W,
) -> Result<(), Fault>
    requires fresh { IsFresh served.old }
    ensures whole { ServesAsked S.Store asked.now (store_of served.old) (store_of served.new)
        ⊎ (IsErr result × (store_of served.new ≡ store_of served.old)) }
{
    set_up(rt, served, asked)?;
    let mut hall = open(rt, asked, output)?;
    let ended = run_hall(rt, &mut hall, served);
    *kept = Some(hall);
    Ok(ended?)
}

/// Sets up the log, the kept space, and what the pages hold requests to.
fn set_up<S: Alter>(
    rt: &HostRuntime,
    served: &mut Served<S>,
    asked: &Serving<'_>,
) -> Result<(), Fault>
    requires fresh { IsFresh served.old }
    ensures fresh { IsFresh served.new }
    ensures same { store_of served.new ≡ store_of served.old }
    ensures hosts { OnOk result (hosts_of served.new ≡ hosts_for asked.now) }
{
    if let Some(path) = asked.log {
        let file = LogFile::open(rt, path)?;
        served.set_log(EventLog::new(rt.alloc(), file));
    }
    served.set_spare(spare_for(rt, asked.database)?);
    served.set_page_rules(PageRules {
        needs_password: asked.needs_password,
        hosts: hosts_for(rt.alloc(), asked)?,
    });
    Ok(())
}

/// The names of the Hosts that the pages and the desk answer, parted by commas: this machine's own,
/// and those that the command says. `None`, where it says none and no browser comes by a port: who
/// stands before a socket has judged by which name it was asked.
fn hosts_for(alloc: Global, asked: &Serving<'_>) -> Result<Option<&'static [u8]>, AllocError>
    ensures { IfOk result
        (λ hosts. option_map (λ names. names.now) hosts ≡ hosts_for asked.now) }
{
    match asked.hosts {
        Some(names) => Ok(Some(with_own(alloc, names)?)),
        None if has_page_port(asked.doors.as_slice()) => Ok(Some(OWN_HOSTS.as_bytes())),
        None => Ok(None),
    }
}

/// This machine's own names, and behind them these, in memory that is never freed.
#[tactic(auto, using(std::proofs::Common::append_assoc))]
fn with_own(alloc: Global, names: &str) -> Result<&'static [u8], AllocError>
    ensures { IfOk result (λ all. all.now ≡ with_own names.now) }
{
    let mut all = Vec::new(alloc);
    all.extend_from_slice(OWN_HOSTS.as_bytes())?;
    all.push(b',')?;
    all.extend_from_slice(names.as_bytes())?;
    Ok(all.leak())
}

/// Whether browsers come by a port of this machine.
fn has_page_port(doors: &[ServedDoor<'_>]) -> bool
    ensures { result ≡ list_any is_page_port doors.now }
{
    doors.iter().any(|door| is_page_port(door))
}

/// Whether browsers come by the door, and it is a port.
fn is_page_port(door: &ServedDoor<'_>) -> bool
    ensures { result ≡ is_page_port door.now }
{
    match door.visitors {
        Visitors::Pages | Visitors::Desk => is_port(&door.address),
        _ => false,
    }
}

/// Whether the address is a port.
fn is_port(address: &Address<'_>) -> bool
    ensures { result ≡ is_port address.now }
{
    matches!(address, Address::Port(_))
}

/// Runs the hall until an operator ends it, with backups as files of this machine.
fn run_hall<S: Alter>(rt: &HostRuntime, hall: &mut Hall, served: &mut Served<S>) -> io::Result<()>
    ensures whole { IsEmpty hall.old → IsFresh served.old
        → IsWhole S.Store (doors_of hall.old) (guests_of hall.new) served.old served.new }
{
    let mut copies = Copies::new(CopyFiles::new(rt));
    hall.run(rt, served, &mut copies)
}

/// The space that is kept for a full disk: a file beside that of the database, whose name has
/// `-space` behind it. For tables in memory none is kept.
fn spare_for(rt: &HostRuntime, database: &str) -> io::Result<Spare> {
    if database == MEMORY {
        return Ok(Spare::none());
    }
    let path = format!(in rt.alloc(); "{database}-space")?;
    Spare::open(rt, path.as_str())
}

/// Opens the doors that the command asks for, prints their addresses, and makes the hall behind
/// them.
fn open<W: Write>(rt: &HostRuntime, asked: &Serving<'_>, output: &mut W) -> io::Result<Hall>
    ensures empty { IfOk result IsEmpty }
    ensures spoken { IfOk result (λ hall. AreSpoken asked.now.doors.items (doors_of hall)) }
{
    let doors = doors_at(rt, asked.doors.as_slice())?;
    tell(output, asked.doors.as_slice(), doors.as_slice())?;
    Hall::open(rt, doors, RandomState::new(rt)?)
}

/// Opens each door that the command line names.
fn doors_at(rt: &HostRuntime, asked: &[ServedDoor<'_>]) -> io::Result<Vec<Entrance>>
    ensures { IfOk result (λ doors. AreSpoken asked.now (map speech_of doors.items)) }
{
    let mut doors = Vec::with_capacity(rt.alloc(), asked.len())?;
    for door in asked {
        let kind = kind_of(rt, door)?;
        doors.push(Entrance::new(door_at(rt, door.address)?, kind))?;
    }
    Ok(doors)
}

/// Opens a socket that listens at the address.
fn door_at(rt: &HostRuntime, address: Address<'_>) -> io::Result<Door> {
    match address {
        Address::Port(port) => Door::at_port(rt, port),
        Address::Path(path) => Door::at_path(rt, path),
    }
}

/// What a hall has to know of a door that the command line names: who comes in there, and how many.
fn kind_of(rt: &HostRuntime, door: &ServedDoor<'_>) -> io::Result<Kind>
    ensures { IfOk result (λ kind. IsSpokenAt door.now kind.speech) }
{
    match door.visitors {
        Visitors::Clients => Ok(Kind::CLIENTS),
        Visitors::Pages => Ok(Kind::PAGES),
        Visitors::Desk => Ok(Kind::DESK),
        Visitors::Stations => Ok(Kind::STATIONS),
        Visitors::BoundStations => Ok(Kind::station(kept(rt.alloc(), door.devices)?)),
        Visitors::Operators => Ok(Kind::OPERATORS),
    }
}

/// Copies the names into memory that is never freed: a door is there as long as the process.
fn kept(alloc: Global, names: &str) -> Result<&'static [u8], AllocError>
    ensures { IfOk result (λ kept. kept.now ≡ names.now) }
{
    let mut kept = Vec::with_capacity(alloc, names.len())?;
    kept.extend_from_slice(names.as_bytes())?;
    Ok(kept.leak())
}

/// Prints the line `serving`, with the address of each door, also where that is a free port.
fn tell<W: Write>(output: &mut W, asked: &[ServedDoor<'_>], doors: &[Entrance]) -> io::Result<()> {
    write!(output, "serving")?;
    for (asked, door) in asked.iter().zip(doors) {
        let visitors = asked.visitors.name();
        let address = named(asked.address, door);
        write!(output, " {visitors}={address}")?;
    }
    writeln!(output)?;
    output.flush()
}

/// The address where the door listens: the port that was taken for it, if it listens on one.
fn named<'a>(address: Address<'a>, door: &Entrance) -> Address<'a> {
    match door.port() {
        Some(port) => Address::Port(port),
        None => address,
    }
}
