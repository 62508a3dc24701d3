use std::fmt;

/// A resource's type and name, as in `sim_net.a`. The derived order, by type and then by name, is the order of
/// addresses.
#[derive(Clone, Debug, PartialEq, Eq, PartialOrd, Ord, Drop)]
pub struct ResourceAddr {
    /// The resource's type, such as `sim_net`.
    pub type_name: String,
    /// The resource's name within its type, such as `a`.
    pub name: String,
}

/// Writes the address `TYPE.NAME` of a resource.
impl fmt::Display for ResourceAddr {
    ghost use Rattle.std.specs.Prelude.{Some};
    ghost use Rattle.tf_config_address.specs.ResourceAddr.{addr_of, addr_text};

    ghost output = { λ l. Some (addr_text (addr_of l)) };

    fn fmt<W: fmt::Write>(&self, f: &mut fmt::Formatter<W>) -> fmt::Result {
        let type_name = self.type_name.as_str();
        let name = self.name.as_str();
        write!(f, "{type_name}.{name}")
    }
}

impl ResourceAddr {
    ghost use Rattle.std.specs.Prelude.{◌≡◌};
    ghost use Rattle.tf_config_address.specs.ResourceAddr.{addr_of, addr_below};

    /// Checks whether this address comes before another: by type, and then by name, byte by byte.
    pub fn is_below(&self, other: &ResourceAddr) -> bool
        ensures { result ≡ addr_below (addr_of self.now) (addr_of other.now) }
    {
        self < other
    }
}
