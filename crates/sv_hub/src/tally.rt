//! A listener that keeps its list.
ghost use Rattle.std.specs.Prelude.{◌≡◌, []};

use crate::Listener;
use std::alloc::{AllocError, Global};
use std::marker::Model;
use sv_model::work::Report;

/// A listener that keeps the list of the reports that it heard.
#[derive(Drop)]
pub struct Tally {
    reports: Vec<Report>,
}

impl Model for Tally {
    ghost use Rattle.std.specs.Prelude.{◌-◌, vec_len, vec_capacity};
    ghost use Rattle.sv_hub.specs.Attachments.{Ear};

    ghost Value = { Ear };

    ghost view = { λ it. record {
      heard = it.reports.items;
      spare = vec_capacity it.reports - vec_len it.reports;
    } };
}

impl Tally {
    /// A tally that has heard nothing. Takes no memory.
    pub fn new(alloc: Global) -> Tally
        ensures { result ≡ record { heard = []; spare = 0 } }
    {
        Tally {
            reports: Vec::new(alloc),
        }
    }
}

impl Listener for Tally {
    ghost heard = { λ it. it.heard };

    ghost spare = { λ it. it.spare };

    fn reserve(&mut self, more: usize) -> Result<(), AllocError> {
        self.reports.reserve(more)?;
        Ok(())
    }

    fn hear(&mut self, report: &Report) {
        self.reports.push(*report).unwrap();
    }

    fn count(&self) -> u64 {
        self.reports.len() as u64
    }
}
