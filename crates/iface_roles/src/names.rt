ghost use Rattle.std.specs.Prelude.{◌≡◌};
ghost use Rattle.iface_roles.specs.Names.{same_name};

/// Whether the two are one name. The case of ASCII letters is disregarded.
pub(crate) fn same_name(a: &str, b: &str) -> bool
    ensures { result ≡ same_name a.now b.now }
{
    a.eq_ignore_ascii_case(b)
}
