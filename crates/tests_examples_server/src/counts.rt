//! A number of connections as an argument.
#![tactic(auto)]

ghost use Rattle.std.specs.Prelude.{◌≡◌, codes, Some, None};
ghost use Rattle.server_start.specs.Input.{count_in};

/// One to nine decimal digits are a number; leading zeros change nothing.
pub fn counts()
    ensures one_digit { count_in (codes "8") ≡ Some 8 }
    ensures zero { count_in (codes "0") ≡ Some 0 }
    ensures zeros_in_front { count_in (codes "0064") ≡ Some 64 }
    ensures nine_digits { count_in (codes "999999999") ≡ Some 999999999 }
{}

/// Any other argument is none: it is empty, too long, signed, or has a byte that is no digit.
pub fn no_counts()
    ensures nothing { count_in (codes "") ≡ None }
    ensures ten_digits { count_in (codes "0000000064") ≡ None }
    ensures plus { count_in (codes "+64") ≡ None }
    ensures minus { count_in (codes "-1") ≡ None }
    ensures space { count_in (codes "64 ") ≡ None }
    ensures underscore { count_in (codes "4_096") ≡ None }
    ensures hexadecimal { count_in (codes "0x40") ≡ None }
{}
