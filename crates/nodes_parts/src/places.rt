// Where references stand, by the numbers in them.
use std::alloc::{AllocError, Global};

/// How many services have a row at most.
const SERVICE_LIMIT: usize = 128;

/// How many numbers a row has at most.
const NUMBER_LIMIT: u64 = 131_072;

/// The numbers in a reference.
#[derive(Clone, Copy)]
pub(crate) struct Numbers {
    /// The low half of the number of its service.
    pub service: u32,
    /// The number of its object.
    pub object: u64,
}

/// For each service a row of places, by the numbers of its objects. It tells where to look first; what stands there is compared,
/// so contracts don't see it.
#[derive(Drop)]
pub(crate) struct Places {
    alloc: Global,
    rows: Vec<Vec<Option<u32>>>,
}

impl Places {
    /// No reference stands anywhere.
    pub(crate) fn new(alloc: Global) -> Places {
        Places {
            alloc,
            rows: Vec::new(alloc),
        }
    }

    /// Where to look first for a reference with these numbers.
    pub(crate) fn get(&self, numbers: Numbers) -> Option<usize> {
        let row = self.rows.get(numbers.service as usize)?;
        let object = usize::try_from(numbers.object).ok()?;
        let place = row.get(object).copied().flatten()?;
        Some(place as usize)
    }

    /// Where the reference with the highest number of a service stands.
    pub(crate) fn last(&self, service: u32) -> Option<usize> {
        let row = self.rows.get(service as usize)?;
        let place = row.last().copied().flatten()?;
        Some(place as usize)
    }

    /// A reference with these numbers stands at this place from now on. Numbers past the limits lead nowhere.
    pub(crate) fn insert(&mut self, numbers: Numbers, place: usize) -> Result<(), AllocError> {
        let service = numbers.service as usize;
        if service >= SERVICE_LIMIT || numbers.object >= NUMBER_LIMIT {
            return Ok(());
        }
        if self.rows.len() <= service {
            let alloc = self.alloc;
            self.rows.resize_with(service + 1, || Vec::new(alloc))?;
        }
        let row = &mut self.rows[service];
        let object = numbers.object as usize;
        if row.len() <= object {
            row.resize(object + 1, None)?;
        }
        row[object] = u32::try_from(place).ok();
        Ok(())
    }
}
