//! What a status-code is called.

use std::fmt;

/// The status-code of a response.
#[derive(Clone, Copy, PartialEq, Eq)]
pub struct Status(pub u16);

impl Status {
    /// The name of the status, for those of RFC 8011 appendix B.
    pub fn name(self) -> Option<&'static str> {
        match self.0 {
            0x0000 => Some("successful-ok"),
            0x0001 => Some("successful-ok-ignored-or-substituted-attributes"),
            0x0002 => Some("successful-ok-conflicting-attributes"),
            0x0400 => Some("client-error-bad-request"),
            0x0401 => Some("client-error-forbidden"),
            0x0402 => Some("client-error-not-authenticated"),
            0x0403 => Some("client-error-not-authorized"),
            0x0404 => Some("client-error-not-possible"),
            0x0405 => Some("client-error-timeout"),
            0x0406 => Some("client-error-not-found"),
            0x0407 => Some("client-error-gone"),
            0x0408 => Some("client-error-request-entity-too-large"),
            0x0409 => Some("client-error-request-value-too-long"),
            0x040a => Some("client-error-document-format-not-supported"),
            0x040b => Some("client-error-attributes-or-values-not-supported"),
            0x040c => Some("client-error-uri-scheme-not-supported"),
            0x040d => Some("client-error-charset-not-supported"),
            0x040e => Some("client-error-conflicting-attributes"),
            0x040f => Some("client-error-compression-not-supported"),
            0x0410 => Some("client-error-compression-error"),
            0x0411 => Some("client-error-document-format-error"),
            0x0412 => Some("client-error-document-access-error"),
            0x0500 => Some("server-error-internal-error"),
            0x0501 => Some("server-error-operation-not-supported"),
            0x0502 => Some("server-error-service-unavailable"),
            0x0503 => Some("server-error-version-not-supported"),
            0x0504 => Some("server-error-device-error"),
            0x0505 => Some("server-error-temporary-error"),
            0x0506 => Some("server-error-not-accepting-jobs"),
            0x0507 => Some("server-error-busy"),
            0x0508 => Some("server-error-job-canceled"),
            0x0509 => Some("server-error-multiple-document-jobs-not-supported"),
            _ => None,
        }
    }
}

/// The name, or `status` and the number in hexadecimal.
impl fmt::Display for Status {
    fn fmt<W: fmt::Write>(&self, f: &mut fmt::Formatter<W>) -> fmt::Result {
        let code = self.0;
        match self.name() {
            Some(name) => f.write_str(name),
            None => write!(f, "status {code:04x}"),
        }
    }
}
