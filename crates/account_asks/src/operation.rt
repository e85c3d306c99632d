//! `Operation`: the IPP operations that are served, and what each takes and does.

ghost use Rattle.std.specs.Prelude.{◌≡◌};
ghost use Rattle.account_asks.specs.Operations.{operation_with, makes_job, describes_document, hands_in_document, is_for_job, lists_attributes, is_send_document, is_get_jobs, is_print_job};

/// An operation of the profile (RFC 8011 sections 4.2 and 4.3).
#[derive(Clone, Copy, PartialEq, Eq)]
pub enum Operation {
    PrintJob,
    ValidateJob,
    CreateJob,
    SendDocument,
    CancelJob,
    GetJobAttributes,
    GetJobs,
    GetPrinterAttributes,
    HoldJob,
    ReleaseJob,
}

impl Operation {
    /// The operation with the operation-id, and None where none is served with it.
    pub(crate) fn with_id(id: u16) -> Option<Operation>
        ensures { result ≡ operation_with id }
    {
        match id {
            0x0002 => Some(Operation::PrintJob),
            0x0004 => Some(Operation::ValidateJob),
            0x0005 => Some(Operation::CreateJob),
            0x0006 => Some(Operation::SendDocument),
            0x0008 => Some(Operation::CancelJob),
            0x0009 => Some(Operation::GetJobAttributes),
            0x000a => Some(Operation::GetJobs),
            0x000b => Some(Operation::GetPrinterAttributes),
            0x000c => Some(Operation::HoldJob),
            0x000d => Some(Operation::ReleaseJob),
            _ => None,
        }
    }

    /// Whether it makes a job, or as Validate-Job only tells whether one would be made.
    pub(crate) fn makes_job(self) -> bool
        ensures { result ≡ makes_job self }
    {
        matches!(
            self,
            Operation::PrintJob | Operation::ValidateJob | Operation::CreateJob
        )
    }

    /// Whether it says of a document in which format it is, and how it is compressed.
    pub(crate) fn describes_document(self) -> bool
        ensures { result ≡ describes_document self }
    {
        matches!(
            self,
            Operation::PrintJob | Operation::ValidateJob | Operation::SendDocument
        )
    }

    /// Whether its data is a document.
    pub(crate) fn hands_in_document(self) -> bool
        ensures { result ≡ hands_in_document self }
    {
        matches!(self, Operation::PrintJob | Operation::SendDocument)
    }

    /// Whether its target is a job. The other operations are for the queue.
    pub(crate) fn is_for_job(self) -> bool
        ensures { result ≡ is_for_job self }
    {
        matches!(
            self,
            Operation::SendDocument
                | Operation::CancelJob
                | Operation::GetJobAttributes
                | Operation::HoldJob
                | Operation::ReleaseJob
        )
    }

    /// Whether it is answered with attributes, which the requester may choose
    /// (requested-attributes).
    pub(crate) fn lists_attributes(self) -> bool
        ensures { result ≡ lists_attributes self }
    {
        matches!(
            self,
            Operation::GetJobAttributes | Operation::GetJobs | Operation::GetPrinterAttributes
        )
    }

    pub(crate) fn is_send_document(self) -> bool
        ensures { result ≡ is_send_document self }
    {
        matches!(self, Operation::SendDocument)
    }

    pub(crate) fn is_get_jobs(self) -> bool
        ensures { result ≡ is_get_jobs self }
    {
        matches!(self, Operation::GetJobs)
    }

    pub(crate) fn is_print_job(self) -> bool
        ensures { result ≡ is_print_job self }
    {
        matches!(self, Operation::PrintJob)
    }
}
