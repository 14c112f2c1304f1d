// Plans: what a case tells of the outside.
use std::alloc::Global;
use wf_cases::{CaseFault, bytes_of};
use wf_host::Plan;
use wf_host_cases::services_of;
use wf_value::Value;

/// What is outside a command.
#[derive(Drop)]
pub struct Outside {
    /// What the host begins with and does.
    pub plan: Plan,
    /// The numbers of the reads of the source that fail.
    pub failing_reads: Vec<u64>,
}

/// A host with this journal and nothing else.
pub fn quiet(alloc: Global, image: Vec<u8>) -> Plan {
    Plan {
        image,
        clock: Vec::new(alloc),
        fail: Vec::new(alloc),
        stop: None,
        services: Vec::new(alloc),
        visits: Vec::new(alloc),
        print_room: None,
    }
}

impl Outside {
    /// The outside that a map tells: the keys of the tables, and our own `failing_read` and `failing_call`, each the number from 1 on of the
    /// one that fails. Another key makes it no case.
    pub fn new(alloc: Global, told: &Value) -> Result<Outside, CaseFault> {
        let Value::Map(told) = told else {
            return Err(CaseFault::NoCase);
        };
        let mut outside = Outside {
            plan: quiet(alloc, Vec::new(alloc)),
            failing_reads: Vec::new(alloc),
        };
        for i in 0..usize::MAX {
            let Some((key, value)) = told.entry(i) else {
                break;
            };
            outside.set(alloc, key, value)?;
        }
        Ok(outside)
    }

    fn set(&mut self, alloc: Global, key: &str, value: &Value) -> Result<(), CaseFault> {
        match key {
            "image" => self.plan.image = bytes_of(alloc, value)?,
            "clock" => self.plan.clock = numbers_of(alloc, value)?,
            "services" => self.plan.services = services_of(alloc, value)?,
            key => return self.set_number(key, number_of(value)?),
        }
        Ok(())
    }

    fn set_number(&mut self, key: &str, number: u64) -> Result<(), CaseFault> {
        match key {
            "stop" => self.plan.stop = Some(number),
            "print_room" => self.plan.print_room = Some(number),
            "failing_read" => return push(&mut self.failing_reads, number),
            "failing_call" => return push(&mut self.plan.fail, number),
            _ => return Err(CaseFault::NoCase),
        }
        Ok(())
    }
}

/// Adds an item at the end.
pub fn push<T: Drop>(items: &mut Vec<T>, item: T) -> Result<(), CaseFault> {
    match items.push(item) {
        Ok(()) => Ok(()),
        Err(_) => Err(CaseFault::OutOfMemory),
    }
}

/// The number from 0 on that a value is.
pub fn number_of(value: &Value) -> Result<u64, CaseFault> {
    match value {
        Value::Int(number) => match u64::try_from(*number) {
            Ok(number) => Ok(number),
            Err(_) => Err(CaseFault::NoCase),
        },
        _ => Err(CaseFault::NoCase),
    }
}

fn numbers_of(alloc: Global, value: &Value) -> Result<Vec<u64>, CaseFault> {
    let Value::List(list) = value else {
        return Err(CaseFault::NoCase);
    };
    let mut numbers = Vec::new(alloc);
    for item in list.items() {
        push(&mut numbers, number_of(item)?)?;
    }
    Ok(numbers)
}
