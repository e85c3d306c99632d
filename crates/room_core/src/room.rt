//! `Room`: one account whole in memory, as lists of jobs, documents and grants. For programs that
//! need no file; the server keeps accounts in tables.

ghost use Rattle.std.specs.Prelude.{◌≡◌, ◌≤◌, pos, is_some, option_copied, IfSome, IsNone, IsOk, OnOk, OnErr};
ghost use Rattle.std.specs.List.{AllByRecursion};
ghost use Rattle.std.specs.FinMap.{get, values};
ghost use Rattle.account_rules.specs.Limits.{last_moment, last_next_job, most_unfinished, most_units};
ghost use Rattle.account_state.specs.Rooms.{empty_room};
ghost use Rattle.account_state.specs.RoomRules.{IsJobAt, IsDocumentAt, IsGrant, NumbersRise, has_document, unfinished_count};
ghost use Rattle.account_state.specs.Sums.{has_processing, reserved_in, charged_in, granted_to};
ghost use Rattle.account_state.specs.Changes.{with_new_job, with_standing, with_ended, with_grant};
ghost use Rattle.account_state.specs.Conditions.{CanAddJob, CanRestand, CanFinish, CanAddGrant};

use crate::{documents, grants, jobs};
use account_rules::{Account, Document, Grant, Job, Moment, Standing, may_be_job};
use account_state::Tally;
use ipp_coding::List;
use std::alloc::{AllocError, Global};
use std::marker::Model;

/// One account whole. Contracts see it as its value in the definitions: when it was opened, the
/// number of its next job, and the maps of its jobs, their documents and its grants, which keep
/// their rules.
#[derive(Drop)]
pub struct Room {
    account: Account,
    jobs: List<Job>,
    documents: List<Document>,
    grants: List<Grant>,
}

impl Model for Room {
    ghost use Rattle.std.specs.Coded.{codes};
    ghost use Rattle.std.specs.FinMap as finite;
    ghost use Rattle.account_rules.specs.contracts.job.Job as job_type;
    ghost use Rattle.account_rules.specs.contracts.job.Document as document_type;
    ghost use Rattle.account_state.specs.Rooms.{RoomValue};
    ghost use Rattle.room_core.specs.ProofRoomLists.{job_map, document_map, grant_map};
    ghost use Rattle.room_core.specs.ProofRoomLists.{PlacesOnce, MonthsOnce};
    ghost use Rattle.account_state.specs.RoomRules.{IsRoom, NumbersRise};

    ghost Value = { RoomValue };

    ghost coded = { Prim.hlevel (codes, finite.code, job_type.the_row.coded, document_type.the_row.coded) };

    ghost view = { λ room. record {
      opened = room.account.opened;
      next = room.account.next_job;
      jobs = job_map room.jobs;
      documents = document_map room.documents;
      grants = grant_map room.grants;
    } };

    ghost invariant = { λ room. NumbersRise room.jobs × PlacesOnce room.documents
        × MonthsOnce room.grants × IsRoom (record {
          opened = room.account.opened;
          next = room.account.next_job;
          jobs = job_map room.jobs;
          documents = document_map room.documents;
          grants = grant_map room.grants;
        }) };
}

impl Room {
    /// A room as it is opened: nothing in it, and its first job to be numbered 1.
    pub fn new(alloc: Global, now: Moment) -> Room
        ensures { result ≡ empty_room now }
    {
        Room {
            account: Account {
                opened: now.seconds(),
                next_job: 1,
            },
            jobs: List {
                items: Vec::new(alloc),
            },
            documents: List {
                items: Vec::new(alloc),
            },
            grants: List {
                items: Vec::new(alloc),
            },
        }
    }

    /// When the account was opened, and the number of its next job.
    pub fn account(&self) -> Account
        ensures account { result ≡ record { opened = self.now.opened; next_job = self.now.next } }
        ensures opened { self.now.opened ≤ last_moment }
        ensures next { (1 ≤ self.now.next) × (self.now.next ≤ last_next_job) }
    {
        self.account
    }

    /// Its jobs, by rising number.
    pub fn jobs(&self) -> &[Job]
        ensures jobs { result.now ≡ values self.now.jobs }
        ensures rising { NumbersRise result.now }
        ensures by_the_rules { AllByRecursion
            (λ job. IsJobAt self.now.next job.job job) result.now }
    {
        self.jobs.as_slice()
    }

    /// The job with the number, if it is there. A number that no job may have, 0 among them, is not
    /// looked up.
    pub fn job(&self, number: u32) -> Option<&Job>
        ensures job { option_copied result ≡ get self.now.jobs number }
        ensures by_the_rules { IfSome result (λ job. IsJobAt self.now.next number job.now) }
    {
        let jobs = self.jobs.as_slice();
        if !may_be_job(number) {
            return None;
        }
        jobs::find_job(jobs, number)
    }

    /// The document of the job with its number there, if there is one: an unfinished job has those
    /// from 1 to as many as it was given, and another job has none.
    pub fn document(&self, job: u32, number: u32) -> Option<&Document>
        ensures document { option_copied result ≡ get self.now.documents (job, number) }
        ensures by_the_rules { IfSome result (λ document. IsDocumentAt (job, number) document.now) }
        ensures is_there { is_some result ≡ has_document (get self.now.jobs job) number }
    {
        documents::find_document(self.documents.as_slice(), job, number)
    }

    /// The pages that were granted for the month (the year times 12, and 0 for January to 11 for
    /// December), if any were.
    pub fn grant(&self, month: u32) -> Option<u32>
        ensures grant { result ≡ get self.now.grants month }
        ensures by_the_rules { IfSome result (IsGrant month) }
    {
        grants::find_pages(self.grants.as_slice(), month)
    }

    /// The pages that were granted for the months up to the given one, in units.
    pub fn granted(&self, month: u32) -> i64
        ensures granted { result ≡ pos (granted_to self.now month) }
        ensures bound { granted_to self.now month ≤ most_units }
    {
        grants::pages_up_to(self.grants.as_slice(), month)
    }

    /// What is counted of all its jobs.
    pub fn tally(&self) -> Tally
        ensures unfinished { result.unfinished ≡ unfinished_count self.now }
        ensures processing { result.is_processing ≡ has_processing self.now }
        ensures reserved { result.reserved ≡ reserved_in self.now }
        ensures charged { result.charged ≡ charged_in self.now }
        ensures few { result.unfinished ≤ most_unfinished }
        ensures bounds { (result.reserved ≤ most_units) × (result.charged ≤ most_units) }
    {
        jobs::tally_of(self.jobs.as_slice())
    }

    /// Adds the job with the next number, with its first document or with none.
    pub fn add_job(&mut self, job: Job, document: Option<Document>) -> Result<(), AllocError>
        requires { CanAddJob self.old job document }
        ensures changed { OnOk result (self.new ≡ with_new_job self.old job document) }
        ensures unchanged { OnErr result (self.new ≡ self.old) }
    {
        jobs::push_job(&mut self.jobs, &mut self.documents, job, document)?;
        self.account.next_job += 1;
        Ok(())
    }

    /// Gives an unfinished job another standing, in which it stays unfinished, and its next
    /// document if there is one, without which no memory is asked for.
    pub fn restand(
        &mut self,
        number: u32,
        standing: Standing,
        document: Option<Document>,
    ) -> Result<(), AllocError>
        requires { CanRestand self.old number standing document }
        ensures changed { OnOk result (self.new ≡ with_standing self.old number standing document) }
        ensures without_document { IsNone document → IsOk result }
        ensures unchanged { OnErr result (self.new ≡ self.old) }
    {
        documents::push_document(&mut self.documents, document)?;
        jobs::restand(&mut self.jobs, number, &standing);
        Ok(())
    }

    /// Gives a job a standing in which it has ended, and drops its documents.
    pub fn finish(&mut self, number: u32, standing: Standing)
        requires { CanFinish self.old number standing }
        ensures { self.new ≡ with_ended self.old number standing }
    {
        jobs::restand(&mut self.jobs, number, &standing);
        documents::drop_documents(&mut self.documents, number);
    }

    /// Grants the pages for a month that nothing was granted for.
    pub fn add_grant(&mut self, month: u32, pages: u32) -> Result<(), AllocError>
        requires { CanAddGrant self.old month pages }
        ensures changed { OnOk result (self.new ≡ with_grant self.old month pages) }
        ensures unchanged { OnErr result (self.new ≡ self.old) }
    {
        grants::push_grant(&mut self.grants, Grant { month, pages })?;
        Ok(())
    }
}
