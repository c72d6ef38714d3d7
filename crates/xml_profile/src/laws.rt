//! Laws of reading.
ghost use Rattle.std.specs.Prelude.{◌≡◌, ◌≢◌, ℕ, List, ◌++◌, Some};
ghost use Rattle.xml_state.specs.declared.fault.XmlFault.{XmlFault};
ghost use Rattle.xml_state.specs.declared.limits.Limits.{Limits};
ghost use Rattle.xml_state.specs.declared.fault.TheConstants.XmlFault.{WANT_OF_MEMORY};
ghost use Rattle.xml_profile.specs.Profile.{settled_fault, first_fault};

/// A fault that is settled is the first fault of the input, however it goes on.
pub fn settled_is_first()
    ensures { (limits : Limits) (bytes more : List ℕ) (fault : XmlFault) → settled_fault limits bytes ≡ Some fault →
        first_fault limits (bytes ++ more) ≡ Some fault }
{}

/// A fault that is settled stays settled, however the input goes on.
pub fn settled_stays()
    ensures { (limits : Limits) (bytes more : List ℕ) (fault : XmlFault) → settled_fault limits bytes ≡ Some fault →
        settled_fault limits (bytes ++ more) ≡ Some fault }
{}

/// No document has want of memory as its fault: it is answered only where memory runs out.
pub fn want_of_memory_is_no_fault()
    ensures settled { (limits : Limits) (bytes : List ℕ) (fault : XmlFault) → settled_fault limits bytes ≡ Some fault → fault ≢ WANT_OF_MEMORY }
    ensures first { (limits : Limits) (bytes : List ℕ) (fault : XmlFault) → first_fault limits bytes ≡ Some fault → fault ≢ WANT_OF_MEMORY }
{}
