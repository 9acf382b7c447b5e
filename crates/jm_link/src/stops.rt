//! What ends the work of a `link`, from what ends a step of it.
ghost use Rattle.std.specs.Prelude.{◌≡◌};
ghost use Rattle.jm_modset.specs.Found.{image_refusal};
ghost use Rattle.jm_link.specs.Linked.{closing_refusal, plugging_refusal};
ghost use Rattle.jm_link.specs.Steps.{plan_refusal, stop_of, stop_of_path};
ghost use Rattle.jm_link.specs.Steps.{stop_of_fault, stop_of_read};

use crate::linking::LinkStop;
use jm_bytes::{NoMemory, Or};
use jm_closure::CloseFault;
use jm_modpath::{PathRefusal, PathStop};
use jm_modset::ReadStop;
use jm_outside::ShelfError;
use jm_plugins::BadClass;
use jm_relink::RelinkFault;
use jm_texts::Refusal;
use jm_writer::PlanFault;

impl From<NoMemory> for LinkStop {
    ghost use Rattle.jm_link.specs.declared.linking.LinkStop.TheVariants.{Memory};

    ghost from_gives = { λ _ stop. stop ≡ Memory };

    fn from(_none: NoMemory) -> LinkStop {
        LinkStop::Memory
    }
}

impl From<ShelfError> for LinkStop {
    ghost from_gives = { λ error stop. stop ≡ stop_of error };

    fn from(error: ShelfError) -> LinkStop {
        match error {
            ShelfError::Failed => LinkStop::Outside,
            ShelfError::Memory => LinkStop::Memory,
        }
    }
}

impl From<PathStop> for LinkStop {
    ghost from_gives = { λ error stop. stop ≡ stop_of_path error };

    fn from(error: PathStop) -> LinkStop {
        match error {
            PathStop::Refused(PathRefusal::BadInfo { path, fault }) => {
                LinkStop::Refused(Refusal::BadInfo { path, fault })
            }
            PathStop::Refused(PathRefusal::TwoModules { dir, name }) => {
                LinkStop::Refused(Refusal::TwoModules { dir, name })
            }
            PathStop::NotThere(path) => LinkStop::NotThere(path),
            PathStop::Outside => LinkStop::Outside,
            PathStop::Memory => LinkStop::Memory,
        }
    }
}

impl From<Or<RelinkFault>> for LinkStop {
    ghost from_gives = { λ error stop. stop ≡ stop_of_fault image_refusal error };

    fn from(error: Or<RelinkFault>) -> LinkStop {
        match error {
            Or::Fault(RelinkFault::BadInfo { name, fault }) => {
                LinkStop::Refused(Refusal::BadEntry { name, fault })
            }
            Or::Fault(RelinkFault::Foreign(name)) => LinkStop::Refused(Refusal::Foreign(name)),
            Or::Memory => LinkStop::Memory,
        }
    }
}

impl From<Or<CloseFault>> for LinkStop {
    ghost from_gives = { λ error stop. stop ≡ stop_of_fault closing_refusal error };

    fn from(error: Or<CloseFault>) -> LinkStop {
        let fault = match error {
            Or::Fault(fault) => fault,
            Or::Memory => return LinkStop::Memory,
        };
        LinkStop::Refused(match fault {
            CloseFault::NoRoot(name) => Refusal::NoRoot(name),
            CloseFault::Missing { name, by } => Refusal::Missing { name, by },
            CloseFault::Cycle(name) => Refusal::Cycle(name),
            CloseFault::SplitPackage {
                package,
                first,
                second,
            } => Refusal::SplitPackage {
                package,
                first,
                second,
            },
        })
    }
}

impl From<Or<Refusal>> for LinkStop {
    ghost from_gives = { λ error stop. stop ≡ stop_of_fault (λ refusal. refusal) error };

    fn from(error: Or<Refusal>) -> LinkStop {
        match error {
            Or::Fault(refusal) => LinkStop::Refused(refusal),
            Or::Memory => LinkStop::Memory,
        }
    }
}

impl From<ReadStop> for LinkStop {
    ghost from_gives = { λ error stop. stop ≡ stop_of_read error };

    fn from(error: ReadStop) -> LinkStop {
        match error {
            ReadStop::NotThere(path) => LinkStop::NotThere(path),
            ReadStop::Outside => LinkStop::Outside,
            ReadStop::Memory => LinkStop::Memory,
        }
    }
}

impl From<Or<BadClass>> for LinkStop {
    ghost from_gives = { λ error stop. stop ≡ stop_of_fault plugging_refusal error };

    fn from(error: Or<BadClass>) -> LinkStop {
        match error {
            Or::Fault(BadClass { name, fault }) => {
                LinkStop::Refused(Refusal::BadClass { name, fault })
            }
            Or::Memory => LinkStop::Memory,
        }
    }
}

impl From<Or<PlanFault>> for LinkStop {
    ghost from_gives = { λ error stop. stop ≡ stop_of_fault plan_refusal error };

    fn from(error: Or<PlanFault>) -> LinkStop {
        let fault = match error {
            Or::Fault(fault) => fault,
            Or::Memory => return LinkStop::Memory,
        };
        LinkStop::Refused(match fault {
            PlanFault::Clash(name) => Refusal::Clash(name),
            PlanFault::TooMany(count) => Refusal::TooMany(count),
            PlanFault::NoTable(lengths) => Refusal::NoTable(lengths),
            PlanFault::TooLarge(length) => Refusal::TooLarge(length),
        })
    }
}
