//! Who may come in by a door of `serve`, with the door's name in the output and its option.
ghost use Rattle.std.specs.Prelude.{◌≡◌, IfSome};
ghost use Rattle.cli_words.specs.Visitors.{name_of, names_devices, option_of};

/// Who comes in by a door, as the command line names it.
#[derive(Clone, Copy, PartialEq, Eq)]
pub enum Visitors {
    /// Clients, over HTTP, at the queues.
    Clients,
    /// Browsers, over HTTP, at the pages.
    Pages,
    /// Operators' browsers, over HTTP, at the desk.
    Desk,
    /// Stations, by lines, for any device.
    Stations,
    /// Stations, by lines, at a bound door: for some devices alone.
    BoundStations,
    /// Operators, by lines.
    Operators,
}

impl Visitors {
    /// The name of their doors in the line that `serve` prints.
    pub fn name(self) -> &'static str
        ensures { result.now ≡ name_of self }
    {
        match self {
            Visitors::Clients => "clients",
            Visitors::Pages => "pages",
            Visitors::Desk => "desk",
            Visitors::Stations => "stations",
            Visitors::BoundStations => "station",
            Visitors::Operators => "operators",
        }
    }

    /// Whether the word for their door has the names of devices before the address.
    pub(crate) fn names_devices(self) -> bool
        ensures { result ≡ names_devices self }
    {
        match self {
            Visitors::BoundStations => true,
            Visitors::Clients
            | Visitors::Pages
            | Visitors::Desk
            | Visitors::Stations
            | Visitors::Operators => false,
        }
    }

    /// Who comes in by the door that this option of `serve` names.
    pub(crate) fn of_option(word: &str) -> Option<Visitors>
        ensures { IfSome result (λ visitors. word.now ≡ option_of visitors) }
    {
        match word {
            "--clients" => Some(Visitors::Clients),
            "--pages" => Some(Visitors::Pages),
            "--desk" => Some(Visitors::Desk),
            "--stations" => Some(Visitors::Stations),
            "--station" => Some(Visitors::BoundStations),
            "--operators" => Some(Visitors::Operators),
            _ => None,
        }
    }
}
