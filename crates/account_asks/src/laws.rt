//! A law on the parts of a URI: a function without a body, whose contract is a fact about the
//! definitions in `specs`. Nobody calls it at run time; docs/PROMISES.md lists it.

ghost use Rattle.account_asks.specs.UriLaws.{UrisAreMadeOfParts};

/// Law: the base of a URI, its path, and a query or a fragment after it are the URI, one after the
/// other. The base is what stands before the first `/` after the first `://`, and the path goes on
/// to the first `?` or `#`. A URI has no other parts.
#[tactic(auto, using(crate::proofs::UriCuts::uris_are_made_of_parts))]
pub fn uris_are_made_of_parts()
    ensures { UrisAreMadeOfParts }
{}
