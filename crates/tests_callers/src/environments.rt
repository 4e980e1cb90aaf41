//! A caller of `envtools`.
ghost use Rattle.std.specs.Prelude.{◌≡◌, Ok, None, OnErr, true, false};
ghost use Rattle.envtools.specs.Environment.{put, value_of};

use envtools::{Env, EnvError};

/// Sets a variable that is not set yet. Answers whether it was set here. An error changes nothing.
pub fn set_default(env: &mut Env, name: &[u8], value: &[u8]) -> Result<bool, EnvError>
    ensures unset { result ≡ Ok true → value_of env.old name.now ≡ None }
    ensures set { result ≡ Ok true → env.new ≡ put env.old name.now value.now }
    ensures kept { result ≡ Ok false → env.new ≡ env.old }
    ensures err { OnErr result (env.new ≡ env.old) }
{
    if env.get(name).is_some() {
        return Ok(false);
    }
    env.set(name, value)?;
    Ok(true)
}
