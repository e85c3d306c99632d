//! The header fields of a request, looked up by their names in any case.
ghost use Rattle.std.specs.Prelude.{◌≡◌, ℕ, List, map};
ghost use Rattle.listen_http.specs.Fields.{is_named, plain_field, values_named};
ghost use Rattle.listen_http.specs.ProofFinding.{FindsMore, FoundIs};

/// A header field of a request.
#[derive(Clone, Copy, Default)]
pub struct Field<'a> {
    pub name: &'a [u8],
    /// Without the white space round it.
    pub value: &'a [u8],
}

impl<'a> Field<'a> {
    /// Whether the field has this name, in any case.
    pub(crate) fn is_named(&self, name: &[u8]) -> bool
        ensures { result ≡ is_named name.now (plain_field self.now) }
    {
        self.name.eq_ignore_ascii_case(name)
    }
}

/// How many fields of a name there are, and the value of the first.
#[derive(Clone, Copy)]
pub(crate) enum Found<'a> {
    Absent,
    /// There is one, of this value.
    One(&'a [u8]),
    /// There are two or more, and the first has this value.
    Many(&'a [u8]),
}

impl<'a> Found<'a> {
    /// Counts one more field, of this value.
    fn and(self, value: &'a [u8]) -> Found<'a>
        ensures { FindsMore self.entry value.now result }
    {
        match self {
            Found::Absent => Found::One(value),
            Found::One(first) => Found::Many(first),
            Found::Many(first) => Found::Many(first),
        }
    }
}

/// Looks up all fields of a name.
pub(crate) fn find_field<'a>(fields: &[Field<'a>], name: &[u8]) -> Found<'a>
    ensures { FoundIs (values_named name.now (map plain_field fields.now)) result }
{
    let mut found = Found::Absent;
    for field in fields {
        if field.is_named(name) {
            found = found.and(field.value);
        }
    }
    found
}
