// The test of a whole area (specs/sound/Sound.antt).
