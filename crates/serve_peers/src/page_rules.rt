//! What the pages hold every request to, as it was set before serving began.

/// Whether a file needs a password, and which Hosts are answered.
#[derive(Clone, Copy)]
pub struct PageRules {
    /// Whether the pages take no file without a password.
    pub needs_password: bool,
    /// The names of the Hosts that are answered, parted by commas. `None`: all are.
    pub hosts: Option<&'static [u8]>,
}

impl PageRules {
    /// Takes files without a password, and answers each Host.
    pub(crate) const NONE: PageRules = PageRules {
        needs_password: false,
        hosts: None,
    };
}
