//! Worked examples.
use super::*;
use std::alloc::AllocError;
use std::test::Fail;
use sv_model::work::{Access, Area, Kind, Place, Report, What};
use sv_range::Span;

const BYTES: Area = Area::Bytes {
    res: 0,
    span: Span { start: 0, end: 16 },
};

const ACCESS: Access = Access {
    area: BYTES,
    what: What::Transition,
    queue: 0,
    sub: None,
    layout: None,
    place: Place {
        event: 1,
        batch: 0,
        slot: 0,
        rec: 0,
        cmd: 0,
    },
    step: 1,
    pos: 0,
};

const REPORT: Report = Report {
    area: BYTES,
    later: ACCESS,
    earlier: ACCESS,
    kind: Kind::Waw,
};

// A listener that never gets more memory.
#[derive(Drop)]
struct Full {
    tally: Tally,
}

impl Listener for Full {
    ghost heard = { λ it. it.tally.heard };

    ghost spare = { λ it. it.tally.spare };

    fn reserve(&mut self, _more: usize) -> Result<(), AllocError> {
        Err(AllocError)
    }

    fn hear(&mut self, report: &Report) {
        self.tally.hear(report)
    }

    fn count(&self) -> u64 {
        self.tally.count()
    }
}

// How many reports a listener that was handed back has heard.
fn count_of(listener: &Option<Box<dyn Listener>>) -> Option<u64> {
    match listener {
        Some(listener) => Some(listener.count()),
        None => None,
    }
}

#[test]
fn hands_back_what_was_heard(rt: HostRuntime) -> Result<(), Fail> {
    let mut hub = Hub::new(rt.alloc());
    let tally: Box<dyn Listener> = Box::new(rt.alloc(), Tally::new(rt.alloc()))?;
    let Ok(id) = hub.attach(tally) else {
        return Err(AllocError.into());
    };
    assert_eq!(rt; id.number, 0);
    hub.reserve(1)?;
    hub.deliver(&REPORT);
    assert_eq!(rt; count_of(&hub.detach(id)), Some(1));
    assert_eq!(rt; count_of(&hub.detach(id)), None);
    Ok(())
}

#[test]
fn counts_ids_on(rt: HostRuntime) -> Result<(), Fail> {
    let mut hub = Hub::new(rt.alloc());
    let first: Box<dyn Listener> = Box::new(rt.alloc(), Tally::new(rt.alloc()))?;
    let second: Box<dyn Listener> = Box::new(rt.alloc(), Tally::new(rt.alloc()))?;
    let third: Box<dyn Listener> = Box::new(rt.alloc(), Tally::new(rt.alloc()))?;
    let (Ok(first), Ok(second)) = (hub.attach(first), hub.attach(second)) else {
        return Err(AllocError.into());
    };
    hub.reserve(1)?;
    hub.deliver(&REPORT);
    assert_eq!(rt; count_of(&hub.detach(first)), Some(1));
    hub.reserve(1)?;
    hub.deliver(&REPORT);
    let Ok(third) = hub.attach(third) else {
        return Err(AllocError.into());
    };
    hub.reserve(1)?;
    hub.deliver(&REPORT);
    assert_eq!(rt; [first.number, second.number, third.number], [0, 1, 2]);
    assert_eq!(rt; count_of(&hub.detach(first)), None);
    assert_eq!(rt; count_of(&hub.detach(second)), Some(3));
    assert_eq!(rt; count_of(&hub.detach(third)), Some(1));
    Ok(())
}

#[test]
fn wants_memory_of_each(rt: HostRuntime) -> Result<(), Fail> {
    let mut hub = Hub::new(rt.alloc());
    let tally: Box<dyn Listener> = Box::new(rt.alloc(), Tally::new(rt.alloc()))?;
    let full: Box<dyn Listener> = Box::new(
        rt.alloc(),
        Full {
            tally: Tally::new(rt.alloc()),
        },
    )?;
    let (Ok(tally), Ok(full)) = (hub.attach(tally), hub.attach(full)) else {
        return Err(AllocError.into());
    };
    assert!(rt; hub.reserve(1).is_err());
    assert_eq!(rt; count_of(&hub.detach(full)), Some(0));
    hub.reserve(1)?;
    hub.deliver(&REPORT);
    assert_eq!(rt; count_of(&hub.detach(tally)), Some(1));
    Ok(())
}
