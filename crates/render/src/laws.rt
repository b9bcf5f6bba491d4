// The laws of renderings, as the contract of a function.
ghost use Rattle.render.specs.Laws.{RenderingsTell};

pub fn renderings_tell() -> u8
    ensures { RenderingsTell }
{
    0
}
