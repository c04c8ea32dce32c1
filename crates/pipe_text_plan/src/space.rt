// A text in two, around its first space.
ghost use Rattle.std.specs.Prelude.{◌≡◌, option_map};
ghost use Rattle.pipe_text_plan.specs.Texts.{around_space};

// None where there is no space.
pub fn around_space(text: &str) -> Option<(&str, &str)>
    ensures { option_map (λ words. (words.0.now, words.1.now)) result ≡ around_space text.now }
{
    text.split_once(' ')
}
