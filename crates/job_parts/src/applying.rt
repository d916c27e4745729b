ghost use Rattle.std.specs.Prelude.{◌≡◌};
ghost use Rattle.std.specs.Result.{result_unwrap_or};
ghost use Rattle.ps_tokens.specs.Dictionaries.{AreObjects};
ghost use Rattle.ps_tokens.specs.EntryErrors.{error_of, earlier as earlier_error};
ghost use Rattle.job_parts.specs.Applied.{params_after};
ghost use Rattle.job_parts.specs.Settings.{number_after as number_set, boolean_after as boolean_set};

use crate::settings::{boolean_after, number_after};
use page_model::parts::TrapParams;
use ps_tokens::entry_errors::{EntryError, earlier};
use ps_tokens::faults::JobFault;
use ps_tokens::object::ObjectList;
use ps_tokens::parameters::Key;

/// The trapping parameters after the `settrapparams` dictionary at `dict`: each that it names has its last entry's
/// value, in ten-thousandths, and the others stay (PLRM3, section 6.3, in this project's profile).
///
/// `WrongKind` where a named value is no number, or no boolean for Enabled; `OutOfRange` where it is outside its range.
/// The faulty entry whose key stands first decides, and the fault stands at its value.
pub fn apply(now: &TrapParams, objects: &ObjectList, dict: u32) -> Result<TrapParams, JobFault>
    requires { AreObjects objects.now }
    ensures { result ≡ params_after now.now objects.now dict }
{
    let mut after = *now;
    let mut entries = Entries {
        objects,
        dict,
        first: None,
    };
    entries.set_number(Key::TrapWidth, &mut after.trap_width);
    entries.set_number(Key::BlackWidth, &mut after.black_width);
    entries.set_number(Key::BlackColorLimit, &mut after.black_color_limit);
    entries.set_number(Key::BlackDensityLimit, &mut after.black_density_limit);
    entries.set_number(Key::StepLimit, &mut after.step_limit);
    entries.set_number(Key::SlidingTrapLimit, &mut after.sliding_trap_limit);
    entries.set_number(Key::TrapColorScaling, &mut after.trap_color_scaling);
    entries.set_boolean(Key::Enabled, &mut after.enabled);
    match entries.first {
        Some(error) => Err(error.fault),
        None => Ok(after),
    }
}

// A dictionary's entries, and of those that were set the error that stands first.
#[derive(Drop)]
struct Entries<'a> {
    objects: &'a ObjectList,
    dict: u32,
    first: Option<EntryError>,
}

impl Entries<'_> {
    // Sets a number as the dictionary names it.
    fn set_number(&mut self, key: Key, number: &mut u32)
        requires { AreObjects self.old.objects.now }
        ensures number { number.new
            ≡ result_unwrap_or (number_set self.old.objects.now self.old.dict key number.old) number.old }
        ensures first { self.new.first ≡ earlier_error self.old.first
            (error_of (number_set self.old.objects.now self.old.dict key number.old)) }
        ensures same { (self.new.objects ≡ self.old.objects) × (self.new.dict ≡ self.old.dict) }
    {
        let set = number_after(self.objects, self.dict, key, *number);
        self.first = earlier(self.first, set.err());
        *number = set.unwrap_or(*number);
    }

    // Sets a boolean as the dictionary names it.
    fn set_boolean(&mut self, key: Key, boolean: &mut bool)
        requires { AreObjects self.old.objects.now }
        ensures boolean { boolean.new
            ≡ result_unwrap_or (boolean_set self.old.objects.now self.old.dict key boolean.old) boolean.old }
        ensures first { self.new.first ≡ earlier_error self.old.first
            (error_of (boolean_set self.old.objects.now self.old.dict key boolean.old)) }
    {
        let set = boolean_after(self.objects, self.dict, key, *boolean);
        self.first = earlier(self.first, set.err());
        *boolean = set.unwrap_or(*boolean);
    }
}
