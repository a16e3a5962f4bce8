ghost use Rattle.std.specs.Prelude.{◌≡◌};
ghost use Rattle.command_line.specs.declared.request.Arguments.{Arguments as ArgumentsValue};

use command_line::Arguments;

/// What arguments request. The trait is for the borrow checker, which has no rule for a call with a type of several
/// lifetimes, such as a reader that notes its errors, if the callee's signature names `'static`, as `Arguments` does
/// with its encoding.
pub trait AnyArguments {
    /// What the arguments request.
    ghost arguments: { Self → ArgumentsValue };

    /// Returns what the arguments request.
    fn arguments(&self) -> &Arguments<'_>
        ensures { result.now ≡ arguments self.now };
}

impl AnyArguments for Arguments<'_> {
    ghost arguments = { λ arguments. arguments };

    fn arguments(&self) -> &Arguments<'_> {
        self
    }
}
